ghost use Rattle.std.specs.Prelude.{◌≡◌, ◌≢◌, ◌∷◌, ◌++◌, ℕ, List, codes, IfSome, IfNone, IfOk, OnErr};
ghost use Rattle.table_terms.specs.declared.place.Place.{Place};
ghost use Rattle.table_terms.specs.Place.{place_letter};
ghost use Rattle.cards.specs.Hands.{Hands, IsDeal};
ghost use Rattle.cards.specs.FourHands.{clockwise_from};
ghost use Rattle.cards.specs.HandReading.{IsDealText, ReadsDeal};

use crate::deal::{Deal, NotADeal};
use crate::hand::Hand;
use crate::hand_reading::read_hand;
use crate::parts::in_four;
use std::str::FromStr;
use table_terms::Place;
use thiserror::Error;

/// A text that is no deal's.
#[derive(Clone, Copy, Debug, PartialEq, Eq, Error)]
pub enum DealTextError {
    /// A text that is not of four hands.
    #[error("not the text of four hands")]
    NotADealText,
    /// A text of four hands: one has other than thirteen cards, or two have a card in common.
    #[error("not a deal")]
    NotADeal,
}

/// Reads the letter of any player, a colon, and the hands clockwise from that player's:
/// `E:.63.AKQ987.A9732 A8654.KQ5.T.QJT6 ..`.
impl FromStr for Deal {
    type Err = DealTextError;

    ghost from_str_gives = { ReadsDeal };

    fn from_str(text: &str) -> Result<Deal, DealTextError> {
        let hands = read_hands(text).ok_or(DealTextError::NotADealText)?;
        match hands.deal() {
            Ok(deal) => Ok(deal),
            Err(NotADeal) => Err(DealTextError::NotADeal),
        }
    }
}

/// Four hands, clockwise from a player's.
#[derive(Clone, Copy)]
struct FourHands {
    first: Place,
    own: Hand,
    left: Hand,
    opposite: Hand,
    right: Hand,
}

impl FourHands {
    /// The deal, if they are one.
    fn deal(&self) -> Result<Deal, NotADeal>
        ensures ok { IfOk result (λ deal.
            deal ≡ clockwise_from self.now.first self.now.own self.now.left self.now.opposite self.now.right) }
        ensures deal { IfOk result IsDeal }
        ensures err { OnErr result (¬ IsDeal
            (clockwise_from self.now.first self.now.own self.now.left self.now.opposite self.now.right)) }
    {
        match self.first {
            Place::North => Deal::new(self.own, self.left, self.opposite, self.right),
            Place::East => Deal::new(self.right, self.own, self.left, self.opposite),
            Place::South => Deal::new(self.opposite, self.right, self.own, self.left),
            Place::West => Deal::new(self.left, self.opposite, self.right, self.own),
        }
    }
}

/// The four hands of a text.
fn read_hands(text: &str) -> Option<FourHands>
    ensures hands { IfSome result (λ read.
        IsDealText (clockwise_from read.first read.own read.left read.opposite read.right) text.now) }
    ensures none { IfNone result ((hands : Hands) → ¬ IsDealText hands text.now) }
{
    let Some((first, rest)) = read_first(text) else {
        return None;
    };
    let Some((own, left, opposite, right)) = in_four(rest, ' ') else {
        return None;
    };
    let Some(own) = read_hand(own) else {
        return None;
    };
    let Some(left) = read_hand(left) else {
        return None;
    };
    let Some(opposite) = read_hand(opposite) else {
        return None;
    };
    let Some(right) = read_hand(right) else {
        return None;
    };
    Some(FourHands {
        first,
        own,
        left,
        opposite,
        right,
    })
}

/// The player whose letter stands before a colon, and the text after it.
fn read_first(text: &str) -> Option<(Place, &str)>
    ensures first { IfSome result (λ read. text.now ≡ place_letter read.0 ∷ codes ":" ++ read.1.now) }
    ensures none { IfNone result ((place : Place) (rest : List ℕ) → text.now ≢ place_letter place ∷ codes ":" ++ rest) }
{
    let Some((letter, rest)) = text.split_once(':') else {
        return None;
    };
    let [letter] = letter.as_bytes() else {
        return None;
    };
    match Place::from_letter(char::from(*letter)) {
        Some(place) => Some((place, rest)),
        None => None,
    }
}
