//! The second card of a trick, where it follows suit.

ghost use Rattle.std.specs.Prelude.{◌≤◌};

use super::{EVEN, Run, answer, base, greatest, live_trump, place_from_top, ranks};
use crate::order::Order;
use cards::{Card, Hand, Position};
use table_terms::Place;

/// How the trick stands for second hand.
#[derive(Clone, Copy)]
struct Second {
    // How strong the card led is, the best answers of third and fourth hand, and the best of leader's other cards.
    beaten: u8,
    threat: u8,
    help: u8,
    leaders: u8,
    // What third hand must play at least, and what he or fourth hand must.
    least_threat: u8,
    least: u8,
}

/// Puts the highest card of each run of what second hand may follow suit with into the order.
pub(crate) fn weigh_second_hand(
    position: &Position,
    player: Place,
    first: Card,
    playable: Hand,
    others: Hand,
    order: &mut Order,
) {
    let led = first.suit;
    let trump = live_trump(position, player, others);
    let two = base(trump, led);
    let third = position.hand(player.left());
    let fourth = position.hand(player.partner());
    let thirds = ranks(third, led);
    let fourths = ranks(fourth, led);
    let leaders = ranks(position.hand(position.leader()), led);
    let least_threat = lowest(two, thirds);
    let second = Second {
        beaten: two + first.rank.height(),
        threat: answer(trump, third, thirds, led),
        help: answer(trump, fourth, fourths, led),
        leaders: greatest(two, leaders),
        least_threat,
        least: least_threat.max(lowest(two, fourths)),
    };
    let mine = ranks(playable, led);
    let suited = mine | thirds | fourths | leaders;
    let mut rest = mine;
    for _ in 0..13 {
        let Some(run) = Run::highest(rest, ranks(others, led)) else {
            return;
        };
        let power = two + run.height();
        let place = place_from_top(suited, run);
        let weight = if trump.is_none() {
            second.at_no_trump(run, place, power)
        } else if second.help.max(power) > second.bar() {
            second.winning(run, place, power)
        } else {
            second.losing(run, place, power)
        };
        order.push(run.number(led), weight);
        rest &= !run.ranks;
    }
}

impl Second {
    /// How strong a card must be to win the trick against the opponents.
    fn bar(&self) -> u8 {
        self.beaten.max(self.threat)
    }

    /// Of a card, without trumps.
    fn at_no_trump(&self, run: Run, place: u16, power: u8) -> u16
        requires { place ≤ 65 }
    {
        if self.help > self.bar() {
            EVEN - run.rank()
        } else if power > self.bar() {
            EVEN + 81 - run.rank()
        } else if power < self.least {
            EVEN - 3 + place
        } else if power < self.beaten {
            EVEN - 11 + place
        } else if run.is_sequence() {
            EVEN + 10 + place
        } else {
            EVEN + 13 - run.rank()
        }
    }

    /// With trumps, where the side wins the trick.
    fn winning(&self, run: Run, place: u16, power: u8) -> u16
        requires { place ≤ 65 }
    {
        if power < self.least_threat {
            EVEN + 40 + place
        } else if self.beaten < self.help && self.help < self.leaders {
            EVEN + 41 + place
        } else if power < self.beaten {
            EVEN + 47 - run.rank()
        } else if power < self.help {
            EVEN + 78 - run.rank()
        } else if power > self.threat {
            EVEN + 73 - run.rank()
        } else if run.is_sequence() {
            EVEN + 62 - run.rank()
        } else {
            EVEN + 49 - run.rank()
        }
    }

    /// With trumps, where the opponents win it.
    fn losing(&self, run: Run, place: u16, power: u8) -> u16
        requires { place ≤ 65 }
    {
        if power < self.least {
            EVEN - 9 + place
        } else if power < self.beaten {
            EVEN - 16 + place
        } else if run.is_sequence() {
            EVEN + 22 - run.rank()
        } else {
            EVEN + 10 - run.rank()
        }
    }
}

/// How strong the lowest of a suit's cards is, where the two is as strong as this; 0 where there is none.
fn lowest(base: u8, ranks: u64) -> u8
    requires { base ≤ 14 }
{
    if ranks == 0 {
        return 0;
    }
    base + ranks.trailing_zeros().min(12) as u8
}
