ghost use Rattle.std.specs.Prelude.{◌≡◌, ◌≢◌, ◌+◌, ◌*◌, ◌<◌, ◌≤◌, ◌↔◌, ℕ, [], ◌∷◌, true, false, length, Some, IfSome};
ghost use Rattle.std.specs.FinSet as set;
ghost use Rattle.cards.specs.declared.card.Card.{Card};
ghost use Rattle.table_terms.specs.declared.place.Place.{Place};
ghost use Rattle.table_terms.specs.Place.{partner_of, side_of};
ghost use Rattle.table_terms.specs.Strain.{trump_of};
ghost use Rattle.cards.specs.Hands.{hand_of};
ghost use Rattle.cards.specs.Rank.{height};
ghost use Rattle.cards.specs.Play.{IsPosition, Position, cards_left, is_trump};
ghost use Rattle.double_dummy_laws.specs.Found.{IsFound, wanted_answer};
ghost use Rattle.double_dummy.specs.Search.{MayNotRuff};
ghost use Rattle.double_dummy_laws.specs.SureTricks.{AreEnough, IsGuarded, IsWinningCard, IsWinningCardKnown};

use crate::masters::runners;
use crate::run;
use crate::run::common;
use crate::shared_trumps::by_shared_trumps;
use crate::weights::top;
use cards::{Card, Hand, Position, Rank};
use position_patterns::Finding;
use table_terms::{Place, Side, Suit};

/// Whether North and South take so many tricks, at the beginning of a trick, where trumps of a player or of both
/// partners, a guarded second best one, or masters and long cards of the leader and the partner take as many as that
/// needs. DDS counts more; what is counted here is known by the cards that it names.
pub fn sure_tricks(position: &Position, target: u8, tricks_left: u8) -> Option<Finding>
    requires start { position.now.table ≡ [] }
    requires left { 4 * tricks_left ≡ cards_left position.now + length position.now.table }
    requires some { target ≤ tricks_left }
    ensures { IfSome result (λ found. IsFound position.now target found.known found.holds) }
{
    if let Some(found) = by_trumps(position, target, tricks_left) {
        return Some(found);
    }
    if let Some(found) = by_guarded_trump(position, target, tricks_left) {
        return Some(found);
    }
    by_masters(position, target, tricks_left)
}

/// The same, by the trumps of one side.
fn by_trumps(position: &Position, target: u8, tricks_left: u8) -> Option<Finding>
    requires start { position.now.table ≡ [] }
    requires left { 4 * tricks_left ≡ cards_left position.now + length position.now.table }
    requires some { target ≤ tricks_left }
    ensures { IfSome result (λ found. IsFound position.now target found.known found.holds) }
{
    let trump = position.strain().trump()?;
    if let Some(found) = by_trumps_of_side(position, trump, Place::North, target, tricks_left) {
        return Some(found);
    }
    by_trumps_of_side(position, trump, Place::East, target, tricks_left)
}

/// The same, by those of a player or of the partner, or of both.
#[inline(always)]
fn by_trumps_of_side(
    position: &Position,
    trump: Suit,
    one: Place,
    target: u8,
    tricks_left: u8,
) -> Option<Finding>
    requires start { position.now.table ≡ [] }
    requires left { 4 * tricks_left ≡ cards_left position.now + length position.now.table }
    requires some { target ≤ tricks_left }
    requires trump { trump_of position.now.strain ≡ Some trump }
    ensures { IfSome result (λ found. IsFound position.now target found.known found.holds) }
{
    // most often neither has as many trumps as tricks are wanted
    let wanted = tricks_wanted(one.side(), target, tricks_left);
    if position.hand(one).of_suit(trump).len() >= wanted {
        if let Some(found) = by_trumps_of(position, trump, one, target, tricks_left) {
            return Some(found);
        }
    }
    let partner = one.partner();
    if position.hand(partner).of_suit(trump).len() >= wanted {
        return by_trumps_of(position, trump, partner, target, tricks_left);
    }
    None
}

/// The same, by a player's trumps: by all of them, where no rank matters, by the highest, or by these and the partner's.
#[inline(never)]
fn by_trumps_of(
    position: &Position,
    trump: Suit,
    holder: Place,
    target: u8,
    tricks_left: u8,
) -> Option<Finding>
    requires start { position.now.table ≡ [] }
    requires left { 4 * tricks_left ≡ cards_left position.now + length position.now.table }
    requires some { target ≤ tricks_left }
    requires trump { trump_of position.now.strain ≡ Some trump }
    ensures { IfSome result (λ found. IsFound position.now target found.known found.holds) }
{
    if let Some(found) = by_many_trumps(position, trump, holder, target, tricks_left) {
        return Some(found);
    }
    if let Some(found) = by_high_trumps(position, trump, holder, target, tricks_left) {
        return Some(found);
    }
    by_shared_trumps(position, trump, holder, target, tricks_left)
}

/// The same, by how many more trumps a player has than both opponents: a trump of theirs beats one at most.
fn by_many_trumps(
    position: &Position,
    trump: Suit,
    holder: Place,
    target: u8,
    tricks_left: u8,
) -> Option<Finding>
    requires start { position.now.table ≡ [] }
    requires left { 4 * tricks_left ≡ cards_left position.now + length position.now.table }
    requires some { target ≤ tricks_left }
    requires trump { trump_of position.now.strain ≡ Some trump }
    ensures { IfSome result (λ found. IsFound position.now target found.known found.holds) }
{
    let wanted = tricks_wanted(holder.side(), target, tricks_left);
    let mine = position.hand(holder).of_suit(trump);
    let others = opponents_cards(position, holder);
    let against = others.of_suit(trump);
    if mine.len().saturating_sub(against.len()) < wanted {
        return None;
    }
    Some(answer(holder.side(), Hand::new()))
}

/// The same, by a player's trumps from one up, and the opponents' that are as high: none of the others beats any.
fn by_high_trumps(
    position: &Position,
    trump: Suit,
    holder: Place,
    target: u8,
    tricks_left: u8,
) -> Option<Finding>
    requires start { position.now.table ≡ [] }
    requires left { 4 * tricks_left ≡ cards_left position.now + length position.now.table }
    requires some { target ≤ tricks_left }
    requires trump { trump_of position.now.strain ≡ Some trump }
    ensures { IfSome result (λ found. IsFound position.now target found.known found.holds) }
{
    let wanted = tricks_wanted(holder.side(), target, tricks_left);
    let mine = position.hand(holder).of_suit(trump);
    let others = opponents_cards(position, holder);
    let against = others.of_suit(trump);
    let lowest = lowest_counted(mine, against, wanted)?;
    let reach = upwards(lowest);
    let counted = common(mine, reach);
    let beaters = common(against, reach);
    if counted.len().saturating_sub(beaters.len()) < wanted {
        return None;
    }
    Some(answer(holder.side(), counted))
}

/// The highest of trumps, a player's or both partners', from which up they are more by so many than the opponents'.
pub fn lowest_counted(mine: Hand, against: Hand, wanted: u32) -> Option<Card> {
    let mut rest = mine.word();
    for counted in 1..14u32 {
        if rest == 0 {
            return None;
        }
        let highest = rest.ilog2();
        let above = (against.word() >> highest).count_ones();
        if counted.saturating_sub(above) >= wanted {
            return Some(Card::from_number(highest.min(51) as u8));
        }
        rest &= !(1 << highest);
    }
    None
}

/// The same, where one trick of the side that isn't on lead is enough: by a second best trump, guarded behind the best.
fn by_guarded_trump(position: &Position, target: u8, tricks_left: u8) -> Option<Finding>
    requires start { position.now.table ≡ [] }
    requires left { 4 * tricks_left ≡ cards_left position.now + length position.now.table }
    requires some { target ≤ tricks_left }
    ensures { IfSome result (λ found. IsFound position.now target found.known found.holds) }
{
    // for a target between, each side wants more than one trick
    if 1 < target && target < tricks_left {
        return None;
    }
    let next = position.leader().left();
    if tricks_wanted(next.side(), target, tricks_left) > 1 {
        return None;
    }
    let trump = position.strain().trump()?;
    if let Some(second) = guarded(position, trump, next) {
        return Some(answer(next.side(), only(second)));
    }
    let second = guarded(position, trump, next.partner())?;
    Some(answer(next.side(), only(second)))
}

/// A player's highest trump, if it is the second best and another trump guards it behind the best one.
fn guarded(position: &Position, trump: Suit, holder: Place) -> Option<Card>
    requires { trump_of position.now.strain ≡ Some trump }
    ensures second { IfSome result (λ second. (best : Card) × ((guard : Card) ×
        IsGuarded position.now holder best second guard)) }
    ensures position { IsPosition position.now }
{
    let mine = position.hand(holder).of_suit(trump);
    let before = position.hand(holder.partner().left()).of_suit(trump);
    // the best trump isn't there: asked first, since it is most often so
    if before.word() <= mine.word() {
        return None;
    }
    let guard = mine.first()?;
    let second = top(mine, guard);
    if guard.number() >= second.number() {
        return None;
    }
    let against = opponents_cards(position, holder).of_suit(trump);
    let best = run::only(common(against, upwards(second)))?;
    if before.contains(best) {
        Some(second)
    } else {
        None
    }
}

/// The same, by masters and long cards of the leader and then of the partner: no other player has a trump.
fn by_masters(position: &Position, target: u8, tricks_left: u8) -> Option<Finding>
    requires start { position.now.table ≡ [] }
    requires left { 4 * tricks_left ≡ cards_left position.now + length position.now.table }
    requires some { target ≤ tricks_left }
    ensures { IfSome result (λ found. IsFound position.now target found.known found.holds) }
{
    let side = position.leader().side();
    let known = runners(position, tricks_wanted(side, target, tricks_left))?;
    Some(answer(side, known))
}

/// Whether North and South take so many tricks, with one card on the table, where the trick under way is enough for
/// second hand's side and it is theirs: by a higher card of the suit in second or fourth hand, or by a ruff.
pub fn winning_card(position: &Position, led: Card, target: u8) -> Option<Finding>
    requires { position.now.table ≡ led ∷ [] }
    ensures { IfSome result (λ found. IsFound position.now target found.known found.holds) }
{
    let tricks_left = position.tricks_left();
    if tricks_left < target {
        return None;
    }
    let second = position.leader().left();
    if tricks_wanted(second.side(), target, tricks_left) > 1 {
        return None;
    }
    let third = position.hand(second.left());
    if may_ruff(position, led, third) {
        return None;
    }
    if let Some(known) = wins(position, led, third, second) {
        return Some(answer(second.side(), known));
    }
    let known = wins(position, led, third, second.partner())?;
    Some(answer(second.side(), known))
}

/// Whether a hand may ruff this lead.
fn may_ruff(position: &Position, led: Card, hand: Hand) -> bool
    ensures { result ≡ false → MayNotRuff position.now led hand }
{
    let Some(trump) = position.strain().trump() else {
        return false;
    };
    if !hand.of_suit(led.suit).is_empty() {
        return false;
    }
    trump != led.suit && !hand.of_suit(trump).is_empty()
}

/// What has to be known of a player's card that takes the trick under way: his highest one of the suit, or any trump
/// where he has none of it.
fn wins(position: &Position, led: Card, third: Hand, holder: Place) -> Option<Hand>
    requires opponent { side_of holder ≢ side_of position.now.leader }
    requires third { third ≡ hand_of position.now.hands (partner_of position.now.leader) }
    requires ruff { MayNotRuff position.now led third }
    ensures { IfSome result (λ known. (card : Card) × (IsWinningCard position.now led holder card ×
        IsWinningCardKnown position.now led card known)) }
{
    let hand = position.hand(holder);
    let held = hand.of_suit(led.suit);
    let Some(lowest) = held.first() else {
        let trump = position.strain().trump()?;
        let _ruff = hand.of_suit(trump).first()?;
        return Some(Hand::new());
    };
    let card = top(held, lowest);
    if card.number() <= led.number() {
        return None;
    }
    if !third.is_disjoint(upwards(card)) {
        return None;
    }
    Some(only(card))
}

/// How many tricks answer whether North and South take so many as the side would have it.
pub fn tricks_wanted(side: Side, target: u8, tricks_left: u8) -> u32
    requires { target ≤ tricks_left }
    ensures { (position : Position) (tricks : ℕ) →
        4 * tricks_left ≡ cards_left position + length position.table → result ≤ tricks →
        AreEnough side tricks position target }
{
    match side {
        Side::NorthSouth => target as u32,
        Side::EastWest => tricks_left as u32 + 1 - target as u32,
    }
}

/// The answer that a side would rather have, by these cards.
pub fn answer(side: Side, known: Hand) -> Finding
    ensures holds { result.holds ≡ wanted_answer side }
    ensures known { result.known ≡ known }
{
    let holds = match side {
        Side::NorthSouth => true,
        Side::EastWest => false,
    };
    Finding { holds, known }
}

/// The cards of a player's opponents.
pub fn opponents_cards(position: &Position, holder: Place) -> Hand
    ensures { (place : Place) (card : Card) → side_of place ≢ side_of holder →
        set.contains (hand_of position.now.hands place) card ≡ true → set.contains result card ≡ true }
{
    let left = holder.left();
    position.hand(left).union(position.hand(left.left().left()))
}

/// The cards of the other three players.
pub fn others_cards(position: &Position, leader: Place) -> Hand
    ensures { (place : Place) (card : Card) → place ≢ leader →
        set.contains (hand_of position.now.hands place) card ≡ true → set.contains result card ≡ true }
{
    let left = leader.left();
    let partner = left.left();
    let right = partner.left();
    position
        .hand(left)
        .union(position.hand(partner).union(position.hand(right)))
}

/// Whether there is a trump among these cards.
pub fn has_trump(position: &Position, cards: Hand) -> bool
    ensures { result ≡ false → (card : Card) → set.contains cards card ≡ true →
        is_trump (trump_of position.now.strain) card ≡ false }
{
    let Some(suit) = position.strain().trump() else {
        return false;
    };
    !cards.of_suit(suit).is_empty()
}

/// The cards of the pack from one to the ace of its suit.
pub fn upwards(lowest: Card) -> Hand
    ensures up { (card : Card) → set.contains result card ≡ true →
        (card.suit ≡ lowest.suit) × (height lowest.rank ≤ height card.rank) }
    ensures all { (card : Card) → card.suit ≡ lowest.suit → height lowest.rank ≤ height card.rank →
        set.contains result card ≡ true }
{
    let ace = Card {
        suit: lowest.suit,
        rank: Rank::Ace,
    };
    if lowest.number() >= ace.number() {
        return only(ace);
    }
    let mut cards = Hand::between(lowest, ace);
    cards.insert(lowest);
    cards.insert(ace);
    cards
}

/// Just this card.
fn only(card: Card) -> Hand
    ensures { (other : Card) → (set.contains result other ≡ true) ↔ (other ≡ card) }
{
    let mut cards = Hand::new();
    cards.insert(card);
    cards
}
