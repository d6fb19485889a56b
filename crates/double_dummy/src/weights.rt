//! How promising each card of the player in turn is. The weights are those of DDS 2.9.0 (Bo Haglund and Soren Hein,
//! Apache License 2.0), rewritten, with fewer cases where the player does not lead. Which card is tried first decides
//! nothing but the time, so nothing is proved of them but safety.

ghost use Rattle.std.specs.Prelude.{◌≡◌, ◌≤◌, true};
ghost use Rattle.std.specs.FinSet as set;

mod discard;
mod lead;
mod ruff;
mod second;
mod upwards;

use cards::{Card, Hand, Position};
pub(crate) use discard::weigh_without_the_suit;
pub(crate) use lead::weigh_leads;
pub(crate) use second::weigh_second_hand;
use table_terms::{Place, Suit};
pub(crate) use upwards::{fourth_hand, third_hand};

// A weight of nothing: weights count up and down from here.
const EVEN: u16 = 100;

const SUITS: [Suit; 4] = [Suit::Spades, Suit::Hearts, Suit::Diamonds, Suit::Clubs];

// How strong the two of trumps is in a trick, and the two of the suit led, if that is not trumps.
const TRUMP: u8 = 14;

const PLAIN: u8 = 1;

/// The trump suit, while a trump is in a hand or on the table.
fn live_trump(position: &Position, player: Place, others: Hand) -> Option<Suit> {
    let suit = position.strain().trump()?;
    if ranks(others, suit) == 0 && ranks(position.hand(player), suit) == 0 {
        return None;
    }
    Some(suit)
}

/// How strong a suit's two is where that suit is led.
fn base(trump: Option<Suit>, led: Suit) -> u8
    ensures { result ≤ 14 }
{
    if trump == Some(led) { TRUMP } else { PLAIN }
}

/// How strong a hand's best answer to a suit is, of which it has these ranks: it follows, or ruffs, or discards.
fn answer(trump: Option<Suit>, hand: Hand, suited: u64, led: Suit) -> u8
    ensures { result ≤ 26 }
{
    if suited != 0 {
        return base(trump, led) + highest(suited);
    }
    match trump {
        Some(trump) => greatest(TRUMP, ranks(hand, trump)),
        None => 0,
    }
}

/// 1 for the best of a suit's cards, 2 for the next one, and so on.
fn place_from_top(suited: u64, run: Run) -> u16
    ensures { result ≤ 65 }
{
    1 + (suited >> run.height() >> 1).count_ones() as u16
}

/// A hand's cards of a suit: a bit for each rank, the lowest for the two.
fn ranks(hand: Hand, suit: Suit) -> u64 {
    hand.word() >> (13 * suit.number()) & 0x1fff
}

/// The height of the highest of a suit's cards, from 0 for the two to 12 for the ace.
fn highest(ranks: u64) -> u8
    ensures { result ≤ 12 }
{
    if ranks == 0 {
        return 0;
    }
    ranks.ilog2().min(12) as u8
}

/// The highest of a suit's cards alone.
fn top_bit(ranks: u64) -> u64 {
    if ranks == 0 {
        return 0;
    }
    1 << ranks.ilog2()
}

/// How strong the highest of a suit's cards is, where the two is as strong as this; 0 where there is none.
fn greatest(base: u8, ranks: u64) -> u8
    requires { base ≤ 14 }
    ensures { result ≤ 26 }
{
    if ranks == 0 {
        return 0;
    }
    base + highest(ranks)
}

/// How many cards of a suit these are.
fn length(ranks: u64) -> u16
    ensures { result ≤ 64 }
{
    ranks.count_ones() as u16
}

/// Whether this is one card, or none.
fn is_single(ranks: u64) -> bool {
    ranks & ranks.wrapping_sub(1) == 0
}

/// A run of one suit's cards: the height of its highest card, and all its ranks.
#[derive(Clone, Copy)]
struct Run {
    height: u8,
    ranks: u64,
}

impl Run {
    /// The highest of these cards, if there are any, where the other players have those.
    fn highest(cards: u64, others: u64) -> Option<Run> {
        if cards == 0 {
            return None;
        }
        let last = cards.ilog2();
        let lower = others & ((1 << last) - 1);
        let ranks = if lower == 0 {
            cards
        } else {
            cards & u64::MAX << lower.ilog2()
        };
        let height = last.min(12) as u8;
        Some(Run { height, ranks })
    }

    /// The lowest run of these cards.
    fn lowest(cards: u64, others: u64) -> Option<Run> {
        if cards == 0 {
            return None;
        }
        let lowest = cards & cards.wrapping_neg();
        let above = others & !lowest.wrapping_sub(1);
        let ranks = cards & (above & above.wrapping_neg()).wrapping_sub(1);
        if ranks == 0 {
            return None;
        }
        let height = ranks.ilog2().min(12) as u8;
        Some(Run { height, ranks })
    }

    /// How many ranks are below its highest card.
    fn height(self) -> u8
        ensures { result ≤ 12 }
    {
        self.height.min(12)
    }

    /// Its highest card's rank, from 2 to 14 for the ace.
    fn rank(self) -> u16
        ensures { result ≤ 14 }
    {
        self.height() as u16 + 2
    }

    /// Its highest card's number in the pack.
    fn number(self, suit: Suit) -> u8 {
        13 * suit.number() + self.height()
    }

    /// Whether it has more cards than one.
    fn is_sequence(self) -> bool {
        !is_single(self.ranks)
    }
}

/// The last card of a set in the order of the pack, of one suit's cards the highest, or another where it has none.
pub(crate) fn top(hand: Hand, other: Card) -> Card
    ensures { set.contains hand other ≡ true → set.contains hand result ≡ true }
{
    let word = hand.word();
    if word == 0 {
        return other;
    }
    let last = Card::from_number(word.ilog2().min(51) as u8);
    if hand.contains(last) { last } else { other }
}
