ghost use Rattle.std.specs.Prelude.{◌≡◌, ◌≢◌, ◌+◌, ◌<◌, ◌≤◌, true, false, IfSome};
ghost use Rattle.std.specs.FinSet as set;
ghost use Rattle.cards.specs.declared.card.Card.{Card};
ghost use Rattle.table_terms.specs.declared.place.Place.{Place};
ghost use Rattle.cards.specs.Hands.{hand_of};
ghost use Rattle.cards.specs.Rank.{height};
ghost use Rattle.cards.specs.Play.{IsPosition, is_of, is_trump};
ghost use Rattle.table_terms.specs.Strain.{trump_of};
ghost use Rattle.double_dummy_laws.specs.SureTricks.{AreMasters};
ghost use Rattle.double_dummy.specs.Search.{AreLong, AreReached, AreSure};

use crate::run::common;
use crate::sure::{has_trump, others_cards, upwards};
use crate::weights::top;
use cards::{Card, Hand, Position};
use table_terms::{Place, Suit};

/// What has to be known of the leader's cards and the partner's, so that they take so many tricks, where no other player
/// has a trump: of the leader's masters as few as are enough, or all of them with the long cards behind them, and then
/// the partner's in the same way.
#[inline(always)]
pub fn runners(position: &Position, wanted: u32) -> Option<Hand>
    ensures { IfSome result (λ known. AreSure position.now wanted known) }
{
    let leader = position.leader();
    let others = others_cards(position, leader);
    if has_trump(position, others) {
        return None;
    }
    // most often these are too few
    if promised(position, leader) < wanted {
        return None;
    }
    by_few_masters(position, leader, others, wanted)
}

/// The same, by as few masters as are enough beside the cards of suits that nobody else has.
#[inline(never)]
fn by_few_masters(position: &Position, leader: Place, others: Hand, wanted: u32) -> Option<Hand>
    requires leader { leader ≡ position.now.leader }
    requires others { (place : Place) (card : Card) → place ≢ leader →
        set.contains (hand_of position.now.hands place) card ≡ true → set.contains others card ≡ true }
    requires plain { (card : Card) → set.contains others card ≡ true →
        is_trump (trump_of position.now.strain) card ≡ false }
    ensures { IfSome result (λ known. AreSure position.now wanted known) }
{
    let mine = position.hand(leader);
    let alone = all_lone(mine, others);
    let masters = all_higher(mine, others);
    let named = fewest(masters, wanted.saturating_sub(alone.len()));
    let taken = alone.union(named);
    if taken.len() >= wanted {
        return Some(named);
    }
    by_long_suits(position, leader, masters, wanted)
}

/// The same, by long suits.
fn by_long_suits(position: &Position, leader: Place, masters: Hand, wanted: u32) -> Option<Hand>
    requires valid { IsPosition position.now }
    requires leader { leader ≡ position.now.leader }
    requires masters { AreMasters position.now masters }
    requires plain { (place : Place) (card : Card) → place ≢ leader →
        set.contains (hand_of position.now.hands place) card ≡ true →
        is_trump (trump_of position.now.strain) card ≡ false }
    ensures { IfSome result (λ known. AreSure position.now wanted known) }
{
    let named = all_best(position, leader, masters);
    let taken = all_long(position, leader, named).union(named);
    let missing = wanted.saturating_sub(taken.len());
    if missing == 0 {
        return Some(named);
    }
    let known = reached(position, leader, taken, missing)?;
    Some(named.union(known))
}

/// What has to be known of the partner's masters, so that the partner takes so many tricks after these cards of the
/// leader, who then leads to one of them.
fn reached(position: &Position, leader: Place, own: Hand, missing: u32) -> Option<Hand>
    requires { leader ≡ position.now.leader }
    ensures { IfSome result (λ known. AreReached position.now own missing known) }
{
    let partner = leader.partner();
    let rest = others_cards(position, partner);
    if has_trump(position, rest) {
        return None;
    }
    let theirs = position.hand(partner);
    // in the leader's own suits the partner follows suit
    let masters = all_lone(all_higher(theirs, rest), own);
    let entry = entry(position.hand(leader), masters)?;
    let alone = all_lone(all_lone(theirs, rest), own);
    let more = missing.saturating_sub(alone.len() + 1);
    let mut few = fewest(masters.without(entry), more);
    few.insert(entry);
    if have_room(own, alone.union(few), theirs, missing) {
        return Some(few);
    }
    let mut named = all_best(position, partner, masters);
    named.insert(entry);
    let long = all_lone(all_long(position, partner, named), own);
    if have_room(own, long.union(named), theirs, missing) {
        return Some(named);
    }
    None
}

/// Whether these of the partner's cards are as many as are missing, and enough others are left to play to the leader's.
fn have_room(own: Hand, cards: Hand, theirs: Hand, missing: u32) -> bool
    ensures many { result ≡ true → missing ≤ set.len cards }
    ensures room { result ≡ true → set.len own + set.len cards ≤ set.len theirs }
{
    if cards.len() < missing {
        return false;
    }
    own.len() + cards.len() <= theirs.len()
}

/// The highest of the partner's masters in a suit of which the leader has a card.
fn entry(mine: Hand, masters: Hand) -> Option<Card>
    ensures held { IfSome result (λ card. set.contains masters card ≡ true) }
    ensures own { IfSome result (λ card. (own : Card) × ((set.contains mine own ≡ true) × (own.suit ≡ card.suit))) }
{
    if let Some(card) = entry_of(mine, masters, Suit::Spades) {
        return Some(card);
    }
    if let Some(card) = entry_of(mine, masters, Suit::Hearts) {
        return Some(card);
    }
    if let Some(card) = entry_of(mine, masters, Suit::Diamonds) {
        return Some(card);
    }
    entry_of(mine, masters, Suit::Clubs)
}

/// The same of a suit.
fn entry_of(mine: Hand, masters: Hand, suit: Suit) -> Option<Card>
    ensures held { IfSome result (λ card. set.contains masters card ≡ true) }
    ensures own { IfSome result (λ card. (own : Card) × ((set.contains mine own ≡ true) × (own.suit ≡ card.suit))) }
{
    let _own = mine.of_suit(suit).first()?;
    let held = masters.of_suit(suit);
    let lowest = held.first()?;
    Some(top(held, lowest))
}

/// As many of a player's masters of a suit as another player has cards of it at most, if there are so many.
fn best(position: &Position, holder: Place, masters: Hand, suit: Suit) -> Hand
    ensures { (card : Card) → set.contains result card ≡ true → set.contains masters card ≡ true }
{
    fewest(masters.of_suit(suit), longest(position, holder, suit))
}

/// The same of all suits.
fn all_best(position: &Position, holder: Place, masters: Hand) -> Hand
    ensures { (card : Card) → set.contains result card ≡ true → set.contains masters card ≡ true }
{
    let spades = best(position, holder, masters, Suit::Spades);
    let hearts = best(position, holder, masters, Suit::Hearts);
    let diamonds = best(position, holder, masters, Suit::Diamonds);
    let clubs = best(position, holder, masters, Suit::Clubs);
    spades.union(hearts).union(diamonds.union(clubs))
}

/// A player's cards of a suit, if no other player has more of it than the named ones are.
fn long(position: &Position, holder: Place, named: Hand, suit: Suit) -> Hand
    ensures among { (card : Card) → set.contains result card ≡ true →
        set.contains (hand_of position.now.hands holder) card ≡ true }
    ensures long { AreLong position.now holder result named }
{
    if named.of_suit(suit).len() < longest(position, holder, suit) {
        return Hand::new();
    }
    position.hand(holder).of_suit(suit)
}

/// The same of all suits.
fn all_long(position: &Position, holder: Place, named: Hand) -> Hand
    ensures among { (card : Card) → set.contains result card ≡ true →
        set.contains (hand_of position.now.hands holder) card ≡ true }
    ensures long { AreLong position.now holder result named }
{
    let spades = long(position, holder, named, Suit::Spades);
    let hearts = long(position, holder, named, Suit::Hearts);
    let diamonds = long(position, holder, named, Suit::Diamonds);
    let clubs = long(position, holder, named, Suit::Clubs);
    spades.union(hearts).union(diamonds.union(clubs))
}

/// How many cards of a suit another player has at most.
fn longest(position: &Position, holder: Place, suit: Suit) -> u32
    ensures { (place : Place) → place ≢ holder →
        set.len (set.retain (hand_of position.now.hands place) (is_of suit)) ≤ result }
{
    let left = holder.left();
    let partner = left.left();
    let first = position.hand(left).of_suit(suit).len();
    let second = position.hand(partner).of_suit(suit).len();
    let third = position.hand(partner.left()).of_suit(suit).len();
    first.max(second).max(third)
}

/// How many masters and long cards the leader and the partner have at most: counted before any is named.
fn promised(position: &Position, leader: Place) -> u32 {
    let left = leader.left();
    let partner = left.left();
    let mine = position.hand(leader);
    let theirs = position.hand(partner);
    let first = position.hand(left);
    let last = position.hand(partner.left());
    let majors = promised_by(mine, theirs, first, last, Suit::Spades)
        + promised_by(mine, theirs, first, last, Suit::Hearts);
    let minors = promised_by(mine, theirs, first, last, Suit::Diamonds)
        + promised_by(mine, theirs, first, last, Suit::Clubs);
    majors + minors
}

/// The same of a suit.
#[inline(always)]
fn promised_by(mine: Hand, theirs: Hand, first: Hand, last: Hand, suit: Suit) -> u32
    ensures { result ≤ 64 }
{
    let own = mine.of_suit(suit);
    let others = theirs.of_suit(suit);
    let against = first.union(last).of_suit(suit);
    let opposed = first.of_suit(suit).len().max(last.of_suit(suit).len());
    if own.word() > against.word() && own.word() > others.word() {
        let masters = above(own, against.union(others));
        if masters < opposed.max(others.len()) {
            return masters;
        }
        return own.len();
    }
    if others.word() > against.word() {
        let masters = above(others, against.union(own));
        if masters < opposed.max(own.len()) {
            return masters;
        }
        return others.len();
    }
    0
}

/// How many cards are higher than all of the others, of one suit.
fn above(cards: Hand, others: Hand) -> u32
    ensures { result ≤ 64 }
{
    let word = others.word();
    if word == 0 {
        return cards.len();
    }
    (cards.word() >> word.ilog2()).count_ones()
}

/// The cards of a suit, if the others have none of it.
fn lone(mine: Hand, others: Hand, suit: Suit) -> Hand
    ensures among { (card : Card) → set.contains result card ≡ true → set.contains mine card ≡ true }
    ensures alone { (card other : Card) → set.contains result card ≡ true → set.contains others other ≡ true →
        other.suit ≢ card.suit }
{
    if !others.of_suit(suit).is_empty() {
        return Hand::new();
    }
    mine.of_suit(suit)
}

/// The same of all suits.
fn all_lone(mine: Hand, others: Hand) -> Hand
    ensures among { (card : Card) → set.contains result card ≡ true → set.contains mine card ≡ true }
    ensures alone { (card other : Card) → set.contains result card ≡ true → set.contains others other ≡ true →
        other.suit ≢ card.suit }
{
    let spades = lone(mine, others, Suit::Spades);
    let hearts = lone(mine, others, Suit::Hearts);
    let diamonds = lone(mine, others, Suit::Diamonds);
    let clubs = lone(mine, others, Suit::Clubs);
    spades.union(hearts).union(diamonds.union(clubs))
}

/// A player's cards of a suit that are higher than all of the others', of whom some have a card of it.
fn higher(mine: Hand, others: Hand, suit: Suit) -> Hand
    ensures among { (card : Card) → set.contains result card ≡ true → set.contains mine card ≡ true }
    ensures above { (card other : Card) → set.contains result card ≡ true → set.contains others other ≡ true →
        other.suit ≡ card.suit → height other.rank < height card.rank }
{
    let held = mine.of_suit(suit);
    let against = others.of_suit(suit);
    let word = against.word();
    if word == 0 {
        return Hand::new();
    }
    if held.word() <= word {
        return Hand::new();
    }
    let upper = held.word() >> word.ilog2() << word.ilog2();
    let reach = upwards(Card::from_number(upper.trailing_zeros().min(51) as u8));
    if !against.is_disjoint(reach) {
        return Hand::new();
    }
    common(held, reach)
}

/// The same of all suits.
fn all_higher(mine: Hand, others: Hand) -> Hand
    ensures among { (card : Card) → set.contains result card ≡ true → set.contains mine card ≡ true }
    ensures above { (card other : Card) → set.contains result card ≡ true → set.contains others other ≡ true →
        other.suit ≡ card.suit → height other.rank < height card.rank }
{
    let spades = higher(mine, others, Suit::Spades);
    let hearts = higher(mine, others, Suit::Hearts);
    let diamonds = higher(mine, others, Suit::Diamonds);
    let clubs = higher(mine, others, Suit::Clubs);
    spades.union(hearts).union(diamonds.union(clubs))
}

/// So many of these cards at most, without the lowest.
fn fewest(cards: Hand, most: u32) -> Hand
    ensures { (card : Card) → set.contains result card ≡ true → set.contains cards card ≡ true }
{
    let mut rest = cards;
    while rest.len() > most {
        let Some(card) = rest.first() else {
            return rest;
        };
        rest.remove(card);
    }
    rest
}
