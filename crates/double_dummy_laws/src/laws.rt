//! What follows from the definitions alone: each function here has nothing to do, and its clauses are the theorem.
ghost use Rattle.std.specs.Prelude.{◌≡◌, ◌≢◌, ◌<◌, ◌≤◌, ℕ, ◌+◌, ◌-◌, Bool, true, [], ◌∷◌, List, All, map, nat_le};
ghost use Rattle.std.specs.FinSet as set;
ghost use Rattle.cards.specs.declared.card.Card.{Card};
ghost use Rattle.table_terms.specs.declared.place.Place.{Place};
ghost use Rattle.table_terms.specs.declared.side.Side.TheVariants.{NorthSouth, EastWest};
ghost use Rattle.table_terms.specs.declared.suit.Suit.{Suit};
ghost use Rattle.cards.specs.Cards.{Cards};
ghost use Rattle.cards.specs.Hands.{Hands, hand_of};
ghost use Rattle.table_terms.specs.Place.{partner_of, side_of};
ghost use Rattle.cards.specs.Play.{Position, IsPosition, IsApart, legal, to_play, cards_left};
ghost use Rattle.cards.specs.DoubleDummy.{best, tricks, double_dummy, worth};
ghost use Rattle.double_dummy_laws.specs.Found.{IsCardFound, IsFound, wanted_answer};
ghost use Rattle.double_dummy_laws.specs.Neighbours.{AreNeighbours, AreUnparted, IsRun};
ghost use Rattle.double_dummy_laws.specs.Pattern.{IsOfPattern, IsTop, holding};
ghost use Rattle.double_dummy_laws.specs.Renaming.{Ownership, IsRenaming, HasNames, ArePlayed, AllKnown, renamed};
ghost use Rattle.double_dummy_laws.specs.SureTricks.{AreBestTrumps, AreEnough, AreInReach, AreLongTrumps, AreLongTrumpsKnown, AreMastersKnown, AreRunners, AreSharedTrumps, AreTrumpsKnown, IsGuarded, IsWinningCard, IsWinningCardKnown, TakesAtLeast, led_by};

/// With cards left, a position is worth the best that the side to play gets by a legal card: the trick that the card
/// completes and what the position after it is worth. With none left it is worth no trick.
pub fn best_card_decides()
    ensures some { (position : Position) → IsPosition position → 0 < cards_left position →
        double_dummy position ≡ best (side_of (to_play position)) (map (worth position) (set.items (legal position))) }
    ensures none { (position : Position) → cards_left position ≡ 0 → double_dummy position ≡ 0 }
{}

/// No legal card gains a trick for the side that plays it, so a card costs the whole difference.
pub fn no_card_gains()
    ensures north_south { (position : Position) (card : Card) → IsPosition position →
        set.contains (legal position) card ≡ true → side_of (to_play position) ≡ NorthSouth →
        worth position card ≤ double_dummy position }
    ensures east_west { (position : Position) (card : Card) → IsPosition position →
        set.contains (legal position) card ≡ true → side_of (to_play position) ≡ EastWest →
        double_dummy position ≤ worth position card }
{}

/// The names of cards do not matter: a position is worth the same where each player's cards get other names of their
/// suits, and of two players' cards of a suit the higher stays the higher.
pub fn other_names()
    ensures { (left : ℕ) (ownership : Ownership) (name : Card → Card) (position : Position) (hands : Hands) →
        IsRenaming ownership name → AllKnown ownership → HasNames ownership name position.hands hands →
        ArePlayed ownership position.leader position.table →
        tricks left (renamed name position hands) ≡ tricks left position }
{}

/// Two legal cards of one suit with no card between them, in any hand or on the table, are worth the same, and so are
/// all cards of a run of such neighbours.
pub fn equal_cards()
    ensures neighbours { (position : Position) (a b : Card) → IsPosition position → AreNeighbours position a b →
        worth position a ≡ worth position b }
    ensures run { (position : Position) (card : Card) (run : List Card) → IsPosition position →
        IsRun position (card ∷ run) → All (λ other. worth position other ≡ worth position card) run }
{}

/// A refused card speaks for others: what was found out of a card, where neither it nor another legal card of its suit
/// mattered, nor any card between the two, holds of the other card too. What was found out of a card is true of its
/// worth.
pub fn a_refused_card_speaks()
    ensures speaks { (position : Position) (known : Cards) (target : ℕ) (card other : Card) (answer : Bool) →
        AreUnparted position known card other → IsCardFound position target known card answer →
        IsCardFound position target known other answer }
    ensures worth { (position : Position) (known : Cards) (target : ℕ) (card : Card) (answer : Bool) →
        IsPosition position → set.contains (legal position) card ≡ true →
        IsCardFound position target known card answer → nat_le target (worth position card) ≡ answer }
{}

/// What was found out at the beginning of a trick, where no card mattered below so many top cards of each suit, holds
/// of every position of the same leader and strain in which each player has as many cards of each suit and the same
/// players hold those top cards.
pub fn partition()
    ensures { (tops : Suit → ℕ) (position other : Position) (known more : Cards) (target : ℕ) (answer : Bool) →
        IsApart position.hands → IsApart other.hands → IsOfPattern tops position.hands other.hands →
        other.strain ≡ position.strain → other.leader ≡ position.leader → position.table ≡ [] → other.table ≡ [] →
        cards_left position ≡ cards_left other →
        ((card : Card) → set.contains known card ≡ true →
        IsTop (tops card.suit) (holding position.hands card.suit) card) →
        ((card : Card) → IsTop (tops card.suit) (holding other.hands card.suit) card →
        set.contains more card ≡ true) →
        ((card : Card) → set.contains known card ≡ true →
        (place : Place) × (set.contains (hand_of position.hands place) card ≡ true)) →
        IsFound position target known answer → IsFound other target more answer }
{}

/// Runners take a trick each: who is on lead takes one with each of his cards that no card of another player beats, and
/// with each one of a suit of which no other player has more cards than he has such masters. Then the partner does the
/// same, if the leader has a card of the suit of one of the partner's masters, and the partner enough others to play to
/// the leader's. To know so, those masters have to be known of whose suit another player has a card.
pub fn runners_take_tricks()
    ensures tricks { (position : Position) (cards masters partners theirs : Cards) → IsPosition position →
        position.table ≡ [] → AreRunners position cards masters →
        AreInReach position (partner_of position.leader) cards partners theirs →
        TakesAtLeast (side_of position.leader) (set.len cards + set.len partners) position }
    ensures found { (position : Position) (cards masters partners theirs known : Cards) (target : ℕ) →
        IsPosition position → position.table ≡ [] → AreRunners position cards masters →
        AreInReach position (partner_of position.leader) cards partners theirs →
        AreMastersKnown position masters known →
        AreMastersKnown (led_by (partner_of position.leader) position) theirs known →
        AreEnough (side_of position.leader) (set.len cards + set.len partners) position target →
        IsFound position target known (wanted_answer (side_of position.leader)) }
{}

/// The best trumps take a trick each: whoever is on lead, a side takes one with each trump of one of its players that is
/// higher than all trumps of the opponents. To know so, these trumps have to be known, if the opponents have any.
pub fn best_trumps_take_tricks()
    ensures tricks { (position : Position) (holder : Place) (cards : Cards) → IsPosition position →
        position.table ≡ [] → AreBestTrumps position holder cards →
        TakesAtLeast (side_of holder) (set.len cards) position }
    ensures found { (position : Position) (holder : Place) (cards known : Cards) (target : ℕ) → IsPosition position →
        position.table ≡ [] → AreBestTrumps position holder cards → AreTrumpsKnown position holder cards known →
        AreEnough (side_of holder) (set.len cards) position target →
        IsFound position target known (wanted_answer (side_of holder)) }
{}

/// A trump beats one at most: whoever is on lead, a side takes as many tricks as one of its players has more trumps than
/// the opponents have that may beat one of them. To know so, these trumps have to be known, if the opponents have others,
/// and none where all of theirs are counted.
pub fn long_trumps_take_tricks()
    ensures tricks { (position : Position) (holder : Place) (cards beaters : Cards) → IsPosition position →
        position.table ≡ [] → AreLongTrumps position holder cards beaters →
        TakesAtLeast (side_of holder) (set.len cards - set.len beaters) position }
    ensures found { (position : Position) (holder : Place) (cards beaters known : Cards) (target : ℕ) →
        IsPosition position → position.table ≡ [] → AreLongTrumps position holder cards beaters →
        AreLongTrumpsKnown position holder cards beaters known →
        AreEnough (side_of holder) (set.len cards - set.len beaters) position target →
        IsFound position target known (wanted_answer (side_of holder)) }
{}

/// Both partners' trumps count together, if one of the two has as many trumps as are counted: then the side can play so
/// that two of those never fall to one trick. Whoever is on lead, it takes as many tricks as these are more than the
/// opponents' trumps that may beat one of them. To know so, they have to be known as those of one player have to be.
pub fn shared_trumps_take_tricks()
    ensures tricks { (position : Position) (holder : Place) (cards beaters : Cards) → IsPosition position →
        position.table ≡ [] → AreSharedTrumps position holder cards beaters →
        TakesAtLeast (side_of holder) (set.len cards - set.len beaters) position }
    ensures found { (position : Position) (holder : Place) (cards beaters known : Cards) (target : ℕ) →
        IsPosition position → position.table ≡ [] → AreSharedTrumps position holder cards beaters →
        AreLongTrumpsKnown position holder cards beaters known →
        AreEnough (side_of holder) (set.len cards - set.len beaters) position target →
        IsFound position target known (wanted_answer (side_of holder)) }
{}

/// A guarded second best trump takes a trick where an opponent leads: its holder has another trump, and the best one is
/// at the holder's right. To know so, it has to be known, and the best one need not be.
pub fn guarded_trump_takes_a_trick()
    ensures tricks { (position : Position) (holder : Place) (best second guard : Card) → IsPosition position →
        position.table ≡ [] → side_of position.leader ≢ side_of holder →
        IsGuarded position holder best second guard → TakesAtLeast (side_of holder) 1 position }
    ensures found { (position : Position) (holder : Place) (best second guard : Card) (known : Cards) (target : ℕ) →
        IsPosition position → position.table ≡ [] → side_of position.leader ≢ side_of holder →
        IsGuarded position holder best second guard → set.contains known second ≡ true →
        AreEnough (side_of holder) 1 position target →
        IsFound position target known (wanted_answer (side_of holder)) }
{}

/// Second hand's side takes the trick under way with a card that beats the lead and every card that third hand may
/// play: second or fourth hand has it and may play it, be it a higher card of the suit or a ruff. To know so, it has to
/// be known, if the lead or a card that third hand may play is of its suit.
pub fn winning_card_takes_the_trick()
    ensures tricks { (position : Position) (led : Card) (holder : Place) (card : Card) → IsPosition position →
        position.table ≡ led ∷ [] → IsWinningCard position led holder card →
        TakesAtLeast (side_of holder) 1 position }
    ensures found { (position : Position) (led : Card) (holder : Place) (card : Card) (known : Cards) (target : ℕ) →
        IsPosition position → position.table ≡ led ∷ [] → IsWinningCard position led holder card →
        IsWinningCardKnown position led card known → AreEnough (side_of holder) 1 position target →
        IsFound position target known (wanted_answer (side_of holder)) }
{}
