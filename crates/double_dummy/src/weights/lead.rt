//! Leads: to a trick that the side wins, or through the strength of the left-hand opponent, and not into that of the
//! right-hand one.

ghost use Rattle.std.specs.Prelude.{◌≤◌};

use super::{Run, SUITS, is_single, length, live_trump, place_from_top, ranks, top_bit};
use crate::order::Order;
use cards::{Hand, Position};
use position_patterns::{LastLeads, Memory};
use table_terms::{Place, Suit};

/// The hands round the table from the leader's.
#[derive(Clone, Copy)]
struct Round {
    mine: Hand,
    left: Hand,
    partner: Hand,
    right: Hand,
    // The trump suit, while a trump is in a hand.
    trump: Option<Suit>,
    // The leads that decided before.
    last: LastLeads,
}

/// A suit to lead, by its ranks: what each player has of it, its three best cards, and the trumps of the others who
/// have none of it, where it is a side suit.
#[derive(Clone, Copy)]
struct Lie {
    mine: u64,
    left: u64,
    partner: u64,
    right: u64,
    first: u64,
    second: u64,
    third: u64,
    partners_ruff: u64,
    their_ruff: u64,
}

/// Puts the highest and the lowest run of each suit into the order; what lies between is tried last.
pub(crate) fn weigh_leads(
    position: &Position,
    hash: u64,
    player: Place,
    others: Hand,
    memory: &Memory,
    order: &mut Order,
) {
    let mine = position.hand(player);
    let round = Round {
        mine,
        left: position.hand(player.left()),
        partner: position.hand(player.partner()),
        right: position.hand(player.partner().left()),
        trump: live_trump(position, player, others),
        last: memory.last_leads(player, mine.len(), hash),
    };
    for suit in SUITS {
        // with trumps and without apart, so that neither pays for what the other looks at
        match round.trump {
            Some(trump) => round.weigh_suit(Some(trump), suit, order),
            None => round.weigh_suit(None, suit, order),
        }
    }
}

impl Round {
    /// Weighs leads of a suit, its highest run and its lowest.
    #[inline(always)]
    fn weigh_suit(&self, trump: Option<Suit>, suit: Suit, order: &mut Order) {
        let lie = self.lie(trump, suit);
        let theirs = lie.left | lie.partner | lie.right;
        let Some(highest) = Run::highest(lie.mine, theirs) else {
            return;
        };
        let base = self.suit_weight(trump, suit, &lie);
        self.weigh_run(trump, suit, highest, base, &lie, order);
        if highest.ranks == lie.mine {
            return;
        }
        if let Some(lowest) = Run::lowest(lie.mine, theirs) {
            self.weigh_run(trump, suit, lowest, base, &lie, order);
        }
    }

    /// Weighs a run of the suit.
    #[inline(always)]
    fn weigh_run(
        &self,
        trump: Option<Suit>,
        suit: Suit,
        run: Run,
        base: u16,
        lie: &Lie,
        order: &mut Order,
    )
        requires least { 200 ≤ base }
        requires most { base ≤ 2000 }
    {
        let wins = lie.wins(run);
        let place = place_from_top(lie.mine | lie.left | lie.partner | lie.right, run);
        let weight = match (trump.is_some(), wins) {
            (false, true) => lie.winning(base, place),
            (false, false) => lie.losing(base, run, place),
            (true, true) => lie.winning_at_trumps(base, run, place),
            (true, false) => lie.losing_at_trumps(base, run, place),
        };
        let number = run.number(suit);
        let more = self.as_before(number, trump.is_some(), wins);
        order.push(number, weight.saturating_add(more));
    }

    /// What each player has of a suit.
    #[inline(always)]
    fn lie(&self, trump: Option<Suit>, suit: Suit) -> Lie {
        let mine = ranks(self.mine, suit);
        let left = ranks(self.left, suit);
        let partner = ranks(self.partner, suit);
        let right = ranks(self.right, suit);
        let all = mine | left | partner | right;
        let first = top_bit(all);
        let second = top_bit(all & !first);
        let third = top_bit(all & !first & !second);
        let mut partners_ruff = 0;
        let mut their_ruff = 0;
        if let Some(trump) = trump {
            if trump != suit {
                if partner == 0 {
                    partners_ruff = ranks(self.partner, trump);
                }
                if left == 0 {
                    their_ruff = ranks(self.left, trump);
                }
                if right == 0 {
                    their_ruff |= ranks(self.right, trump);
                }
            }
        }
        Lie {
            mine,
            left,
            partner,
            right,
            first,
            second,
            third,
            partners_ruff,
            their_ruff,
        }
    }

    /// What a suit is worth as a lead: the more, the fewer cards the opponents have. One who has none counts as if all
    /// his cards were of it, since he may ruff.
    #[inline(always)]
    fn suit_weight(&self, trump: Option<Suit>, suit: Suit, lie: &Lie) -> u16
        ensures least { 200 ≤ result }
        ensures most { result ≤ 2000 }
    {
        let many = self.answers(lie.left) + self.answers(lie.right);
        match trump {
            Some(trump) => {
                let may_ruff = trump != suit && ranks(self.mine, trump) != 0;
                1400 - many * 128 / 13 + lie.ruffs(may_ruff) - 24
            }
            None if lie.partner == 0 => 1400 - many * 128 / 19 - 9,
            None => 1400 - many * 128 / 19,
        }
    }

    /// How many cards an opponent has for a suit.
    #[inline(always)]
    fn answers(&self, suited: u64) -> u16
        ensures { result ≤ 13 }
    {
        let many = if suited == 0 {
            self.mine.len() as u16
        } else {
            length(suited)
        };
        many.min(13)
    }

    /// What it counts that a lead decided last where the leader had as many cards, or before that, and that it did where
    /// the players had as many cards of each suit.
    #[inline(always)]
    fn as_before(&self, number: u8, trumps: bool, wins: bool) -> u16 {
        let (most, alike) = match (trumps, wins) {
            (false, true) => (110, 60),
            (false, false) => (45, 40),
            (true, true) => (40, 25),
            (true, false) => (14, 12),
        };
        let alike: u16 = if self.last.is_alike(number) { alike } else { 0 };
        if self.last.is_last(number) {
            alike.saturating_add(most)
        } else if self.last.is_before(number) {
            alike.saturating_add(most / 2)
        } else {
            alike
        }
    }
}

impl Lie {
    /// Whether the side wins a trick to which the leader leads the best card of a run.
    #[inline(always)]
    fn wins(&self, run: Run) -> bool {
        if self.partners_ruff | self.their_ruff != 0 {
            return self.partners_ruff > self.their_ruff;
        }
        self.partner.max(1 << run.height()) > self.left | self.right
    }

    /// Whether the best card is an opponent's only one.
    fn first_is_single(&self) -> bool {
        self.first == self.left || self.first == self.right
    }

    /// Whether the right-hand opponent, who plays last, keeps one of the two best cards guarded.
    fn is_into_strength(&self) -> bool {
        self.right & (self.first | self.second) != 0 && !is_single(self.right)
    }

    /// Whether the left-hand opponent's best card lies under partner's second best.
    fn is_through_strength(&self) -> bool {
        self.left & self.first != 0 && self.partner & self.second != 0 && !is_single(self.partner)
    }

    /// What it counts that partner has the second and the third best card, or that we have them between us.
    fn next_best(&self, partners: u16, ours: u16) -> u16
        requires partners { partners ≤ 100 }
        requires ours { ours ≤ 100 }
        ensures { result ≤ 100 }
    {
        if self.partner & self.second != 0 {
            if self.partner & self.third != 0 {
                partners
            } else if self.mine & self.third != 0 && !is_single(self.partner) {
                ours
            } else {
                0
            }
        } else if self.mine & self.second != 0
            && self.partner & self.third != 0
            && !is_single(self.partner)
        {
            ours
        } else {
            0
        }
    }

    /// What is promised by ruffs and by how the best cards lie, from 24 up and down.
    fn ruffs(&self, may_ruff: bool) -> u16
        ensures { result ≤ 100 }
    {
        let mut weight = if self.their_ruff != 0 { 12 } else { 24 };
        if self.partners_ruff != 0 && self.right != 0 {
            weight += 17;
        }
        if self.is_into_strength() {
            weight -= 12;
        } else if self.is_through_strength() {
            weight += 27;
        }
        if may_ruff
            && is_single(self.mine)
            && self.partner & self.first != 0
            && !is_single(self.partner)
        {
            weight += 19;
        }
        weight
    }

    /// Of a lead without trumps, where we win the trick.
    fn winning(&self, base: u16, place: u16) -> u16
        requires place { place ≤ 65 }
        requires least { 200 ≤ base }
        requires most { base ≤ 2000 }
    {
        if self.left & self.second != 0 {
            if is_single(self.left) {
                base + 61 + place
            } else {
                base + 40 + place
            }
        } else if self.right & self.second != 0 && !is_single(self.right) {
            base + 17 + place
        } else {
            base + 45 + place
        }
    }

    /// Of a lead without trumps, where an opponent wins it.
    #[inline(always)]
    fn losing(&self, base: u16, run: Run, place: u16) -> u16
        requires place { place ≤ 65 }
        requires least { 200 ≤ base }
        requires most { base ≤ 2000 }
    {
        let mut base = base;
        if self.is_into_strength() {
            base -= 10;
        } else if self.is_through_strength() {
            base += 31;
        }
        base += self.next_best(35, 25);
        if self.first_is_single() {
            base + 28 + place
        } else if self.mine & self.first != 0 {
            base - 17 + place
        } else if !run.is_sequence() {
            base + 12 + place
        } else if place == 2 {
            base + 48
        } else {
            base + 29 - place
        }
    }

    /// Of a lead with trumps, where we win the trick.
    fn winning_at_trumps(&self, base: u16, run: Run, place: u16) -> u16
        requires place { place ≤ 65 }
        requires least { 200 ≤ base }
        requires most { base ≤ 2000 }
    {
        if self.first_is_single() {
            base + 35 + place
        } else if self.mine & self.first != 0 {
            if self.partner & self.second != 0 {
                base + 48 + place
            } else if place == 1 {
                base + 31
            } else {
                base - 3 + place
            }
        } else if self.partner & self.first != 0 {
            if self.mine & self.second != 0 {
                base + 42 + place
            } else {
                base + 28 + place
            }
        } else if !run.is_sequence() {
            base + 11 + place
        } else if place == 2 {
            base + 40
        } else {
            base + 22 + place
        }
    }

    /// Of a lead with trumps, where an opponent wins it.
    fn losing_at_trumps(&self, base: u16, run: Run, place: u16) -> u16
        requires place { place ≤ 65 }
        requires least { 200 ≤ base }
        requires most { base ≤ 2000 }
    {
        let base = base + self.next_best(20, 13);
        if self.first_is_single() {
            base + 2 + place
        } else if self.mine & self.first != 0 {
            if self.partner & self.second != 0 {
                base + 33 + place
            } else if place == 1 {
                base + 38
            } else {
                base - 14 + place
            }
        } else if self.partner & self.first != 0 {
            base + 34 + place
        } else if run.is_sequence() && place == 2 {
            base + 35
        } else {
            base + 17 - run.rank()
        }
    }
}
