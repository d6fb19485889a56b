ghost use Rattle.std.specs.Prelude.{Some};
ghost use Rattle.cards.specs.HandText.{holding_text};

use crate::card::Card;
use crate::hand::Hand;
use crate::rank::Rank;
use std::fmt;
use table_terms::Suit;

/// What a hand holds in one suit.
#[derive(Clone, Copy)]
pub struct Holding {
    pub hand: Hand,
    pub suit: Suit,
}

impl fmt::Display for Holding {
    ghost output = { λ holding. Some (holding_text holding.hand holding.suit) };

    fn fmt<W: fmt::Write>(&self, f: &mut fmt::Formatter<W>) -> fmt::Result {
        let hand = self.hand;
        let suit = self.suit;
        for rank in &Rank::DOWN {
            if hand.contains(Card { suit, rank: *rank }) {
                f.write_char(rank.letter())?;
            }
        }
        Ok(())
    }
}
