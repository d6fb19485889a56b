ghost use Rattle.std.specs.Prelude.{◌≡◌, ◌<◌, ◌≤◌, [], length, slice_get, IsTrue, ◌↔◌, IfSome, OnSome, IfNone};
ghost use Rattle.std.specs.List.{list_any};
ghost use Rattle.cards.specs.PlayedCards.{same_card, has_repeat};

use crate::card::Card;
use crate::rank::Rank;
use std::marker::Model;
use table_terms::Suit;

/// The cards of a board as they were played, in their order: at most 52, which lie in the value itself.
#[derive(Clone, Copy)]
pub struct Play {
    cards: [Card; 52],
    len: u8,
}

impl Model for Play {
    ghost use Rattle.std.specs.Prelude.{List};
    ghost use Rattle.cards.specs.declared.card.Card.{Card};

    ghost Value = { List Card };

    ghost use Rattle.cards.specs.PlayPlaces.{IsPlayInPlaces, cards_of, card_places, card_places-cards_of};

    ghost view = { cards_of };

    ghost invariant = { IsPlayInPlaces };

    ghost inverse = { card_places };

    ghost inverse_ok = { card_places-cards_of };
}

// What stands in the places that no card fills.
const NO_CARD: Card = Card {
    suit: Suit::Spades,
    rank: Rank::Two,
};

impl Play {
    /// How many cards a play has at most.
    pub const MOST: usize = 52;

    /// No card was noted.
    #[tactic(auto, using(crate::proofs::PlayPlacesLemmas::no_places))]
    pub fn none() -> Play
        ensures { result ≡ [] }
    {
        Play {
            cards: [NO_CARD; 52],
            len: 0,
        }
    }

    /// The play of these cards, if there are at most 52.
    pub fn new(cards: &[Card]) -> Option<Play>
        ensures some { IfSome result (λ play. play ≡ cards.now) }
        ensures short { OnSome result (length cards.now ≤ 52) }
        ensures none { IfNone result (52 < length cards.now) }
    {
        let len = cards.len();
        if len > Play::MOST {
            return None;
        }
        let mut places = [NO_CARD; 52];
        places[..len].copy_from_slice(cards);
        Some(Play {
            cards: places,
            len: len as u8,
        })
    }

    /// Whether no card was noted.
    pub fn is_empty(&self) -> bool
        ensures { IsTrue result ↔ (self.now ≡ []) }
    {
        self.as_slice().is_empty()
    }

    /// Whether some card stands twice in the play.
    pub fn has_repeat(&self) -> bool
        ensures { result ≡ has_repeat self.now }
    {
        repeats(self.as_slice())
    }

    /// The cards.
    pub fn as_slice(&self) -> &[Card]
        ensures cards { result.now ≡ self.now }
        ensures short { length result.now ≤ 52 }
    {
        &self.cards[..self.len as usize]
    }
}

// Whether some card stands twice.
fn repeats(cards: &[Card]) -> bool
    ensures { result ≡ has_repeat cards.now }
{
    for i in 0..cards.len() {
        if stands_in(cards[i], &cards[i + 1..]) {
            return true;
        }
    }
    false
}

fn stands_in(card: Card, cards: &[Card]) -> bool
    ensures { result ≡ list_any (same_card card) cards.now }
{
    cards.iter().any(|other| card.number() == other.number())
}
