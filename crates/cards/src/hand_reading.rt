ghost use Rattle.std.specs.Prelude.{◌≡◌, true, IfSome, IfNone};
ghost use Rattle.std.specs.FinSet as set;
ghost use Rattle.cards.specs.declared.card.Card.{Card};
ghost use Rattle.cards.specs.Cards.{Cards};
ghost use Rattle.cards.specs.HandReading.{IsHoldingText, IsHandText, ReadsHand};

use crate::card::Card;
use crate::hand::Hand;
use crate::parts::in_four;
use crate::rank::Rank;
use std::str::FromStr;
use table_terms::Suit;
use thiserror::Error;

/// A text that is no hand's.
#[derive(Clone, Copy, Debug, PartialEq, Eq, Error)]
#[error("not a hand")]
pub struct NotAHand;

/// Reads the suits from the spades down with a dot between them, the cards of each in any order and in either case:
/// `AKQ.jt.56789.432`.
impl FromStr for Hand {
    type Err = NotAHand;

    ghost from_str_gives = { ReadsHand };

    fn from_str(text: &str) -> Result<Hand, NotAHand> {
        read_hand(text).ok_or(NotAHand)
    }
}

/// The hand of a text.
pub(crate) fn read_hand(text: &str) -> Option<Hand>
    ensures hand { IfSome result (λ hand. IsHandText hand text.now) }
    ensures none { IfNone result ((cards : Cards) → ¬ IsHandText cards text.now) }
{
    let Some((spades, hearts, diamonds, clubs)) = in_four(text, '.') else {
        return None;
    };
    let Some(spades) = read_holding(Suit::Spades, spades) else {
        return None;
    };
    let Some(hearts) = read_holding(Suit::Hearts, hearts) else {
        return None;
    };
    let Some(diamonds) = read_holding(Suit::Diamonds, diamonds) else {
        return None;
    };
    let Some(clubs) = read_holding(Suit::Clubs, clubs) else {
        return None;
    };
    Some(spades.union(hearts).union(diamonds).union(clubs))
}

/// The cards of one suit, by the letters of their ranks.
fn read_holding(suit: Suit, letters: &str) -> Option<Hand>
    ensures held { IfSome result (λ hand. IsHoldingText hand suit letters.now) }
    ensures only { IfSome result (λ hand. (card : Card) → set.contains hand card ≡ true → card.suit ≡ suit) }
    ensures none { IfNone result ((cards : Cards) → ¬ IsHoldingText cards suit letters.now) }
{
    let mut hand = Hand::new();
    for letter in letters.as_bytes() {
        let Some(rank) = Rank::from_letter(char::from(letter.to_ascii_uppercase())) else {
            return None;
        };
        let card = Card { suit, rank };
        if hand.contains(card) {
            return None;
        }
        hand.insert(card);
    }
    Some(hand)
}
