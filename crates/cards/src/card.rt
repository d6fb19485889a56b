ghost use Rattle.std.specs.Prelude.{◌≡◌, ◌<◌, ◌≢◌, IfOk, OnErr, Some};
ghost use Rattle.cards.specs.Card.{card_text, number_in_pack};
ghost use Rattle.cards.specs.declared.card.Card.{Card};

use crate::rank::Rank;
use std::fmt;
use std::str::FromStr;
use table_terms::Suit;
use thiserror::Error;

/// One of the 52 cards of the pack (Law 1).
#[derive(Clone, Copy, PartialEq, Eq)]
pub struct Card {
    pub suit: Suit,
    pub rank: Rank,
}

impl Card {
    /// Where the card stands in the pack, from 0 for the two of spades to 51 for the ace of clubs.
    pub fn number(self) -> u8
        ensures number { result ≡ number_in_pack self }
        ensures below { result < 52 }
    {
        13 * self.suit as u8 + self.rank as u8
    }
}

/// A text that names no card.
#[derive(Clone, Copy, Debug, Error)]
#[error("not a card")]
pub struct NotACard;

/// Reads a suit's letter and a rank's, as `SA` or `HT`.
impl FromStr for Card {
    type Err = NotACard;

    ghost from_str_gives = { λ text read.
        (IfOk read (λ card. card_text card ≡ text)) × (OnErr read ((card : Card) → card_text card ≢ text)) };

    fn from_str(text: &str) -> Result<Card, NotACard> {
        let [suit, rank] = text.as_bytes() else {
            return Err(NotACard);
        };
        let Some(suit) = Suit::from_letter(char::from(*suit)) else {
            return Err(NotACard);
        };
        let Some(rank) = Rank::from_letter(char::from(*rank)) else {
            return Err(NotACard);
        };
        Ok(Card { suit, rank })
    }
}

impl fmt::Display for Card {
    ghost output = { λ card. Some (card_text card) };

    fn fmt<W: fmt::Write>(&self, f: &mut fmt::Formatter<W>) -> fmt::Result {
        f.write_char(self.suit.letter())?;
        f.write_char(self.rank.letter())
    }
}
