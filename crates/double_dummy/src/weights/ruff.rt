//! Ruffs of a player who has none of the suit led.

ghost use Rattle.std.specs.Prelude.{◌≤◌};

use super::{EVEN, Run, TRUMP, answer, length, place_from_top, ranks};
use crate::order::Order;
use cards::{Position, Trick, strength};
use table_terms::{Place, Suit};

/// How the trick stands for a player who may ruff.
#[derive(Clone, Copy)]
pub(super) struct Ruffs {
    trump: Suit,
    // The trumps of all hands.
    trumps: u64,
    // How many cards are on the table.
    played: u32,
    // Whether partner's card is the best of the trick, and how strong its best card is.
    ours: bool,
    beaten: u8,
    // How strong the best answer of the next opponent is, and that of partner, if they have still to play.
    threat: u8,
    help: u8,
}

impl Ruffs {
    /// Takes in the cards on the table, and what the players can do who have still to play.
    pub(super) fn of(position: &Position, player: Place, trump: Suit, led: Suit) -> Ruffs {
        let left = position.hand(player.left());
        let partner = position.hand(player.partner());
        let right = position.hand(player.partner().left());
        let trumps = ranks(left.union(partner).union(right), trump);
        let trumps = trumps | ranks(position.hand(player), trump);
        let trick = position.trick();
        let some = Some(trump);
        let (ours, theirs) = match trick {
            Trick::Empty => (0, 0),
            Trick::One(a) => (0, strength(some, led, a)),
            Trick::Two(a, b) => (strength(some, led, a), strength(some, led, b)),
            Trick::Three(a, b, c) => (
                strength(some, led, b),
                strength(some, led, a).max(strength(some, led, c)),
            ),
        };
        let played = trick.len();
        let threat = if played < 3 {
            answer(some, left, ranks(left, led), led)
        } else {
            0
        };
        let help = if played < 2 {
            answer(some, partner, ranks(partner, led), led)
        } else {
            0
        };
        Ruffs {
            trump,
            trumps,
            played,
            ours: ours > theirs,
            beaten: ours.max(theirs),
            threat,
            help,
        }
    }

    /// Puts the highest card of each run of the player's trumps into the order.
    pub(super) fn weigh(&self, mine: u64, theirs: u64, order: &mut Order) {
        let length = length(mine);
        let mut rest = mine;
        for _ in 0..13 {
            let Some(run) = Run::highest(rest, theirs) else {
                return;
            };
            let power = TRUMP + run.height();
            let weight = match self.played {
                1 => self.second_hand(run, length, power),
                2 => self.third_hand(run, length, power),
                _ => self.fourth_hand(run, power),
            };
            order.push(run.number(self.trump), weight);
            rest &= !run.ranks;
        }
    }

    /// What a discard counts more, by who wins the trick.
    pub(super) fn discard(&self) -> u16
        ensures { result ≤ 60 }
    {
        match self.played {
            1 if self.help > self.bar() => 60,
            1 | 2 => 0,
            _ if self.ours => 25,
            _ => 14,
        }
    }

    /// Whether partner's card stands against the next opponent.
    fn is_won(&self) -> bool {
        self.ours && self.beaten > self.threat
    }

    /// How strong a card must be to win the trick against the opponents.
    fn bar(&self) -> u8 {
        self.beaten.max(self.threat)
    }

    fn second_hand(&self, run: Run, length: u16, power: u8) -> u16
        requires { length ≤ 64 }
    {
        if self.help.max(power) > self.bar() || self.threat < TRUMP {
            EVEN + 24 + 2 * length - run.rank()
        } else {
            EVEN + 15 + 2 * length - run.rank()
        }
    }

    fn third_hand(&self, run: Run, length: u16, power: u8) -> u16
        requires { length ≤ 64 }
    {
        if self.is_won() {
            return EVEN - 50 - run.rank();
        }
        if power < self.beaten {
            return EVEN - 32 + place_from_top(self.trumps, run);
        }
        match (self.ours, power > self.threat) {
            (true, true) => EVEN + 48 + length - run.rank(),
            (true, false) => EVEN - 12 + length - run.rank(),
            (false, _) if self.threat < TRUMP => EVEN + 72 + length - run.rank(),
            (false, true) => EVEN + 48 + length - run.rank(),
            (false, false) => EVEN + 36 + length - run.rank(),
        }
    }

    fn fourth_hand(&self, run: Run, power: u8) -> u16 {
        if self.ours {
            EVEN + 2 - run.rank()
        } else if power > self.beaten {
            EVEN + 33 + place_from_top(self.trumps, run)
        } else {
            EVEN - 13 + place_from_top(self.trumps, run)
        }
    }
}
