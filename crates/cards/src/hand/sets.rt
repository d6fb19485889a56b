ghost use Rattle.std.specs.Prelude.{◌≡◌, ◌<◌, ◌≤◌, ◌&&◌, true, nat_lt, IfSome, IfNone};
ghost use Rattle.std.specs.FinSet as set;
ghost use Rattle.cards.specs.Card.{number_in_pack};
ghost use Rattle.cards.specs.Cards.{bits_of_cards};
ghost use Rattle.cards.specs.Play.{is_of};
ghost use Rattle.cards.specs.declared.card.Card.{Card};

use crate::card::Card;
use crate::hand::Hand;
use table_terms::Suit;

/// What the play of the cards asks of a hand as a set.
impl Hand {
    /// The hand without a card.
    pub fn without(self, card: Card) -> Hand
        ensures { result ≡ set.remove self card }
    {
        let mut rest = self;
        rest.remove(card);
        rest
    }

    /// The cards that the other hand does not have.
    pub fn difference(self, other: Hand) -> Hand
        ensures { result ≡ set.difference self other }
    {
        Hand {
            bits: self.bits & !other.bits,
        }
    }

    /// The cards of a suit.
    pub fn of_suit(self, suit: Suit) -> Hand
        ensures { result ≡ set.retain self (is_of suit) }
    {
        let spades = 0x1fff;
        Hand {
            bits: self.bits & spades << (13 * suit.number()),
        }
    }

    /// The cards of the pack above one and below another, in the order of the pack.
    pub fn between(low: Card, high: Card) -> Hand
        requires { number_in_pack low < number_in_pack high }
        ensures { (card : Card) → set.contains result card ≡
            (nat_lt (number_in_pack low) (number_in_pack card) && nat_lt (number_in_pack card) (number_in_pack high)) }
    {
        Hand {
            bits: (1 << high.number()) - (2 << low.number()),
        }
    }

    /// The first card of the hand in the order of the pack, if it has any.
    pub fn first(self) -> Option<Card>
        ensures some { IfSome result (λ card. set.contains self card ≡ true) }
        ensures first { IfSome result (λ card. (other : Card) →
            set.contains self other ≡ true → number_in_pack card ≤ number_in_pack other) }
        ensures none { IfNone result (self ≡ set.empty) }
    {
        if self.bits == 0 {
            return None;
        }
        Some(Card::from_number(self.bits.trailing_zeros() as u8))
    }

    /// The hand as a word, a bit for each card by its number in the pack.
    pub fn word(self) -> u64
        ensures { result ≡ bits_of_cards self }
    {
        self.bits
    }
}
