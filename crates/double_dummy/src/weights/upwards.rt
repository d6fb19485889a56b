//! Third and fourth hand, where they follow suit: they try their cards upwards, from the lowest one that wins the trick,
//! or from the lowest where none does or partner's wins it.

ghost use Rattle.std.specs.Prelude.{◌≤◌};

use super::{highest, ranks};
use cards::{Card, Hand, Position};
use table_terms::{Place, Suit};

/// The cards that third hand tries before the rest, where the others have those: the ones that win the trick, or where
/// none does, the lowest that is above the best of the trick, or that makes fourth hand spend his best.
pub(crate) fn third_hand(
    position: &Position,
    player: Place,
    first: Card,
    second: Card,
    playable: Hand,
    others: Hand,
) -> u64 {
    let led = first.suit;
    if ruffs(position, led, second) {
        return 0;
    }
    let hand = position.hand(player.left());
    let theirs = ranks(hand, led);
    let ours = strength_in(led, first);
    let beaten = ours.max(strength_in(led, second));
    if theirs == 0 && may_ruff(position, led, hand) {
        return if ours < beaten { above(led, beaten) } else { 0 };
    }
    let bar = beaten.max(best_of(theirs));
    if ours == bar {
        return 0;
    }
    let mine = ranks(playable, led);
    if theirs == 0 || best_of(mine) > bar {
        return above(led, bar);
    }
    let parting = mine | ranks(others, led) & !theirs;
    forcing(led, mine, theirs, parting, ours, beaten)
}

/// The lowest of third hand's cards, who cannot win, with which he makes fourth hand spend his best: it is above the
/// best of the trick and above fourth hand's next best.
#[inline(never)]
fn forcing(led: Suit, mine: u64, theirs: u64, parting: u64, ours: u8, beaten: u8) -> u64
    requires ours { ours ≤ 13 }
    requires beaten { beaten ≤ 13 }
{
    let between = parting & ((1 << highest(theirs)) - 1);
    let next = theirs & ((1 << highest(between)) - 1);
    if between == 0 || next == 0 {
        return 0;
    }
    let least = if best_of(next) > beaten {
        best_of(next)
    } else if ours == beaten {
        return 0;
    } else {
        beaten
    };
    let over = mine >> least << least;
    (over & over.wrapping_neg()) << (13 * led.number())
}

/// The cards that fourth hand tries before the rest: the ones that win the trick, if partner's does not.
pub(crate) fn fourth_hand(position: &Position, first: Card, second: Card, third: Card) -> u64 {
    let led = first.suit;
    if ruffs(position, led, second) || ruffs(position, led, third) {
        return 0;
    }
    let theirs = strength_in(led, first).max(strength_in(led, third));
    if strength_in(led, second) > theirs {
        return 0;
    }
    above(led, theirs)
}

/// Whether a card is a ruff.
fn ruffs(position: &Position, led: Suit, card: Card) -> bool {
    card.suit != led && position.strain().trump() == Some(card.suit)
}

/// Whether a hand that has none of the suit led can ruff.
fn may_ruff(position: &Position, led: Suit, hand: Hand) -> bool {
    match position.strain().trump() {
        Some(trump) => trump != led && ranks(hand, trump) != 0,
        None => false,
    }
}

/// How strong a card is in the suit led, from 1 for the two to 13 for the ace; 0 of another suit.
fn strength_in(led: Suit, card: Card) -> u8
    ensures { result ≤ 13 }
{
    if card.suit == led {
        1 + card.rank.height()
    } else {
        0
    }
}

/// How strong the highest of a suit's cards is; 0 where there is none.
fn best_of(ranks: u64) -> u8
    ensures { result ≤ 13 }
{
    if ranks == 0 {
        return 0;
    }
    1 + highest(ranks)
}

/// The cards of the pack from the one after those of a suit up to this strength.
fn above(led: Suit, strength: u8) -> u64
    requires { strength ≤ 13 }
{
    u64::MAX << (13 * led.number() + strength)
}
