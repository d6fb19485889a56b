//! The cards of a player who has none of the suit led: discards, from a long suit first, and ruffs.

ghost use Rattle.std.specs.Prelude.{◌≤◌};

use super::ruff::Ruffs;
use super::{EVEN, Run, SUITS, is_single, length, live_trump, ranks, top_bit};
use crate::order::Order;
use cards::{Card, Hand, Position};
use table_terms::{Place, Suit};

/// Puts the lowest discard of each suit into the order, and the highest card of each run of trumps.
pub(crate) fn weigh_without_the_suit(
    position: &Position,
    player: Place,
    first: Card,
    playable: Hand,
    others: Hand,
    order: &mut Order,
) {
    let trump = live_trump(position, player, others);
    let more = weigh_ruffs(trump, position, player, first.suit, playable, others, order);
    for suit in SUITS {
        let mine = ranks(playable, suit);
        if mine != 0 && trump != Some(suit) {
            let theirs = ranks(others, suit);
            let worth = discard(trump.is_some(), mine, theirs) + more;
            if let Some(run) = Run::lowest(mine, theirs) {
                // where it is refused, the rest of the suit goes upwards
                order.push(run.number(suit), worth - run.rank());
            }
        }
    }
}

/// Puts the highest card of each run of trumps into the order; what a discard counts more, if there are any.
#[inline(always)]
fn weigh_ruffs(
    trump: Option<Suit>,
    position: &Position,
    player: Place,
    led: Suit,
    playable: Hand,
    others: Hand,
    order: &mut Order,
) -> u16
    ensures { result ≤ 60 }
{
    let Some(trump) = trump else {
        return 0;
    };
    let mine = ranks(playable, trump);
    if mine == 0 {
        return 0;
    }
    let ruffs = Ruffs::of(position, player, trump, led);
    ruffs.weigh(mine, ranks(others, trump), order);
    ruffs.discard()
}

/// Of a discard of a suit, less its rank: from a long suit, and not from the guard of a king or a bare ace.
fn discard(trumps: bool, mine: u64, theirs: u64) -> u16
    ensures least { 94 ≤ result }
    ensures most { result ≤ 300 }
{
    let length = length(mine);
    let above = mine < theirs;
    if trumps {
        let spoils = if length == 2 && above && guards_second(mine, theirs) {
            4
        } else {
            0
        };
        return EVEN + 8 * length / 5 - spoils;
    }
    let spoils = if is_single(mine) && !above {
        6
    } else if length == 2 && above && guards_second(mine, theirs) {
        5
    } else {
        0
    };
    EVEN + 8 * length / 3 - spoils
}

/// Whether the best of these cards is the second best of a suit, where another player has the best.
fn guards_second(mine: u64, theirs: u64) -> bool {
    mine > theirs & !top_bit(theirs)
}
