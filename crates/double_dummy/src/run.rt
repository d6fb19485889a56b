ghost use Rattle.std.specs.Prelude.{◌≡◌, ◌<◌, ◌≤◌, ◌&&◌, IfSome, IsTrue, true};
ghost use Rattle.std.specs.FinSet as set;
ghost use Rattle.cards.specs.declared.card.Card.{Card};
ghost use Rattle.cards.specs.Hands.{hand_of};
ghost use Rattle.cards.specs.Play.{legal, to_play};
ghost use Rattle.cards.specs.Card.{number_in_pack};
ghost use Rattle.double_dummy.specs.Search.{AreSpokenFor, HasLive, HasOthers, IsRunOf};
ghost use Rattle.double_dummy_laws.specs.Neighbours.{IsBetween};

use cards::{Card, Hand, Position};
use position_patterns::Holders;

/// The live cards that the other players hold, and those on the table, where the player in turn holds these: with each
/// card that lies on the table, since it parts the cards next to it.
pub fn others(position: &Position, live: Hand, mine: Hand) -> Hand
    requires live { HasLive position.now live }
    requires mine { mine ≡ hand_of position.now.hands (to_play position.now) }
    ensures { HasOthers position.now result }
{
    live.difference(mine)
}

/// The cards that are held or lie on the table.
pub fn live(position: &Position) -> Hand
    ensures { HasLive position.now result }
{
    Holders::of(position).all().union(position.trick().cards())
}

/// The card, and the player's cards that are worth the same: no other player has one between.
pub fn run_of(position: &Position, others: Hand, playable: Hand, card: Card) -> Hand
    requires others { HasOthers position.now others }
    requires playable { playable ≡ legal position.now }
    requires legal { set.contains (legal position.now) card ≡ true }
    ensures run { IsRunOf position.now card result }
    ensures itself { set.contains result card ≡ true }
{
    let mut run = unparted(playable, card, others);
    run.insert(card);
    run
}

/// The cards that a refused card speaks for, where these cards mattered: those of its suit that none of them parts from
/// it, if it did not matter itself. In this the search differs from DDS, which drops what is lower than all cards that
/// mattered so far. Where no card of its suit is left to try, it need not speak.
pub fn spoken_for(
    position: &Position,
    playable: Hand,
    card: Card,
    decisive: Hand,
    rest: Hand,
) -> Hand
    requires playable { playable ≡ legal position.now }
    requires legal { set.contains (legal position.now) card ≡ true }
    ensures { AreSpokenFor position.now decisive card result }
{
    if rest.of_suit(card.suit).is_empty() {
        return Hand::new();
    }
    if decisive.contains(card) {
        return Hand::new();
    }
    unparted(playable, card, decisive).difference(decisive)
}

/// The card, where there is one alone.
pub fn only(cards: Hand) -> Option<Card>
    ensures held { IfSome result (λ card. set.contains cards card ≡ true) }
    ensures alone { IfSome result (λ card. (other : Card) → set.contains cards other ≡ true → card ≡ other) }
{
    match cards.first() {
        Some(card) if cards.len() == 1 => Some(card),
        _ => None,
    }
}

/// Whether these cards are one run, or none: where a player has no choice, none has to be weighed.
pub fn is_one_run(playable: Hand, others: Hand) -> bool {
    let word = playable.word();
    if word == 0 {
        return true;
    }
    let lowest = word.trailing_zeros();
    let highest = word.ilog2();
    // the bits of the cards from the lowest to the one before the highest
    let inner = (1u64 << highest).wrapping_sub(1 << lowest);
    others.word() & inner == 0 && lowest / 13 == highest / 13
}

/// Those of these cards that are of the card's suit, and with none of the parting ones between it and them.
fn unparted(cards: Hand, card: Card, parting: Hand) -> Hand
    ensures among { (other : Card) → set.contains result other ≡ true → set.contains cards other ≡ true }
    ensures suit { (other : Card) → set.contains result other ≡ true → card.suit ≡ other.suit }
    ensures free { (other between : Card) → set.contains result other ≡ true → set.contains parting between ≡ true →
        ¬ IsBetween card other between }
{
    let suited = cards.of_suit(card.suit);
    let (low, high) = ends(suited, card, parting);
    common(suited, stretch(low, card, high, parting))
}

/// The cards of the pack from a low one to a high one, if this card is one of them, and no parting card is between.
fn stretch(low: Card, card: Card, high: Card, parting: Hand) -> Hand
    ensures { (other between : Card) → card.suit ≡ other.suit → set.contains result other ≡ true →
        set.contains parting between ≡ true → ¬ IsBetween card other between }
{
    if !are_in_order(low, card, high) {
        return Hand::new();
    }
    let inner = Hand::between(low, high);
    if !inner.is_disjoint(parting) {
        return Hand::new();
    }
    let mut stretch = inner;
    stretch.insert(low);
    stretch.insert(high);
    stretch
}

/// Whether a card stands in the pack from a lower one to a higher one.
fn are_in_order(low: Card, card: Card, high: Card) -> bool
    ensures order { IsTrue result → number_in_pack low < number_in_pack high }
    ensures from { IsTrue result → number_in_pack low ≤ number_in_pack card }
    ensures to { IsTrue result → number_in_pack card ≤ number_in_pack high }
{
    let number = card.number();
    low.number() < high.number() && low.number() <= number && number <= high.number()
}

/// The lowest and the highest of a suit's cards that none of the parting ones parts from this one.
fn ends(suited: Hand, card: Card, parting: Hand) -> (Card, Card) {
    let here = 1u64 << card.number();
    let below = parting.word() & (here - 1);
    let above = parting.word() & !(here - 1);
    let from = if below == 0 { 0 } else { below.ilog2() + 1 };
    let nearest = above & above.wrapping_neg();
    let open = (suited.word() & nearest.wrapping_sub(1)) >> from << from;
    if open & open.wrapping_sub(1) == 0 {
        return (card, card);
    }
    let low = Card::from_number(open.trailing_zeros().min(51) as u8);
    let high = Card::from_number(open.ilog2().min(51) as u8);
    (low, high)
}

/// The cards that are in both sets.
pub(crate) fn common(a: Hand, b: Hand) -> Hand
    ensures { (card : Card) → set.contains result card ≡ (set.contains a card && set.contains b card) }
{
    a.difference(a.difference(b))
}
