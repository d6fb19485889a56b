ghost use Rattle.std.specs.Prelude.{◌≡◌, true, IfSome, IfNone};
ghost use Rattle.std.specs.FinSet as set;

use crate::run::is_one_run;
use crate::weights::{
    fourth_hand, third_hand, weigh_leads, weigh_second_hand, weigh_without_the_suit,
};
use cards::{Card, Hand, Position, Trick};
use position_patterns::Memory;
use table_terms::Place;

// More runs than a player's cards can be.
const PLACES: usize = 16;

/// What a player may play, as it is tried: of each run the highest card, since if it wins, the fewest cards have to be
/// known. Most players' cards are weighed; where third or fourth hand follows suit, they are tried upwards. Which card
/// is tried first decides nothing but the time.
#[derive(Clone, Copy)]
pub struct Order {
    // Of each run that was weighed how promising its highest card is, and below that the card's number in the pack: one
    // word, so that the best is found without a branch for each.
    cards: [u32; PLACES],
    runs: usize,
    // The cards that go before the rest where they are tried upwards, and those by which runs end.
    before: u64,
    others: u64,
}

impl Order {
    /// Nothing weighed yet.
    pub fn new() -> Order {
        Order {
            cards: [0; PLACES],
            runs: 0,
            before: 0,
            others: 0,
        }
    }

    /// Looks at the cards that the player in turn may play; where they are one run, there is no choice.
    pub fn weigh(
        &mut self,
        position: &Position,
        hash: u64,
        player: Place,
        others: Hand,
        playable: Hand,
        memory: &Memory,
    ) {
        self.others = others.word();
        if is_one_run(playable, others) {
            return;
        }
        match position.trick() {
            Trick::Empty => weigh_leads(position, hash, player, others, memory, self),
            Trick::One(a) if follows(playable, a) => {
                weigh_second_hand(position, player, a, playable, others, self);
            }
            Trick::Two(a, b) if follows(playable, a) => {
                self.before = third_hand(position, player, a, b, playable, others);
            }
            Trick::Three(a, b, c) if follows(playable, a) => {
                self.before = fourth_hand(position, a, b, c);
            }
            Trick::One(a) | Trick::Two(a, _) | Trick::Three(a, _, _) => {
                weigh_without_the_suit(position, player, a, playable, others, self);
            }
        }
    }

    /// Adds a card.
    pub(crate) fn push(&mut self, number: u8, weight: u16) {
        if self.runs < PLACES {
            self.cards[self.runs] = (weight as u32) << 6 | (number & 63) as u32;
            self.runs += 1;
        }
    }

    /// The most promising of the cards that are untried.
    pub fn best(&self, untried: Hand) -> Option<Card>
        ensures some { IfSome result (λ card. set.contains untried card ≡ true) }
        ensures none { IfNone result (untried ≡ set.empty) }
    {
        if untried.is_empty() {
            return None;
        }
        let card = Card::from_number(self.number(untried.word()).min(51));
        if untried.contains(card) {
            return Some(card);
        }
        untried.first()
    }

    /// The number of the most promising of the cards in a word.
    fn number(&self, untried: u64) -> u8 {
        let mut most = 0u32;
        for at in 0..self.runs.min(PLACES) {
            let card = self.cards[at];
            let weighed = if untried >> (card & 63) & 1 == 1 {
                card
            } else {
                0
            };
            most = most.max(weighed);
        }
        if most == 0 {
            return self.lowest(untried);
        }
        (most & 63) as u8
    }

    /// The number of the highest card of the lowest run, of the cards that go first if there is one.
    fn lowest(&self, untried: u64) -> u8 {
        let before = untried & self.before;
        let from = if before == 0 { untried } else { before };
        let lowest = from & from.wrapping_neg();
        let above = self.others & !lowest.wrapping_sub(1);
        let end = above & above.wrapping_neg();
        let run = untried & end.wrapping_sub(1);
        if run == 0 {
            return 0;
        }
        run.ilog2() as u8
    }
}

/// Whether cards that may be played follow suit.
fn follows(playable: Hand, led: Card) -> bool {
    !playable.of_suit(led.suit).is_empty()
}
