ghost use Rattle.std.specs.Prelude.{◌≡◌, ◌+◌, ◌*◌, ◌^◌, ◌<◌, ◌≤◌, ◌↔◌, IsTrue};
ghost use Rattle.std.specs.FinSet as set;
ghost use Rattle.cards.specs.Card.{card_cmp, number_in_pack};
ghost use Rattle.cards.specs.Cards.{AreDisjoint};
ghost use Rattle.cards.specs.declared.card.Card.{Card};

mod sets;

use crate::card::Card;
use crate::holding::Holding;
use std::fmt;
use std::marker::Model;
use table_terms::Suit;

/// A set of cards, as a player holds it.
#[derive(Clone, Copy)]
pub struct Hand {
    bits: u64,
}

impl Model for Hand {
    ghost use Rattle.std.specs.Prelude.{◌<◌, ◌^◌};
    ghost use Rattle.std.specs.FinSet as set;
    ghost use Rattle.cards.specs.contracts.card.Card as the_card;
    ghost use Rattle.cards.specs.Cards.{Cards, cards_of_bits, bits_of_cards};
    ghost use Rattle.cards.specs.CardBits.{bits_of_cards-cards_of_bits};

    ghost Value = { Cards };

    ghost coded = { set.code the_card.the_row.coded };

    ghost view = { λ hand. cards_of_bits hand.bits };

    ghost invariant = { λ hand. hand.bits < 2 ^ 52 };

    ghost inverse = { λ cards. record { bits = bits_of_cards cards } };

    ghost inverse_ok = { λ hand below i. record { bits = bits_of_cards-cards_of_bits hand.bits below i } };
}

impl Hand {
    /// No cards.
    pub fn new() -> Hand
        ensures { result ≡ set.empty }
    {
        Hand { bits: 0 }
    }

    /// Whether the card is in the hand.
    pub fn contains(self, card: Card) -> bool
        ensures { result ≡ set.contains self card }
    {
        self.bits >> card.number() & 1 == 1
    }

    /// Adds a card, if it is not there already.
    pub fn insert(&mut self, card: Card)
        ensures { self.new ≡ set.insert self.old card }
    {
        self.bits |= 1 << card.number();
    }

    /// Takes a card away, if it is there.
    pub fn remove(&mut self, card: Card)
        ensures { self.new ≡ set.remove self.old card }
    {
        self.bits &= !(1 << card.number());
    }

    /// The cards that are in either hand.
    pub fn union(self, other: Hand) -> Hand
        ensures { result ≡ set.union self other }
    {
        Hand {
            bits: self.bits | other.bits,
        }
    }

    /// How many cards there are.
    pub fn len(self) -> u32
        ensures cards { result ≡ set.len self }
        ensures few { result ≤ 52 }
    {
        self.bits.count_ones()
    }

    /// Whether there is no card.
    pub fn is_empty(self) -> bool
        ensures { IsTrue result ↔ (self ≡ set.empty) }
    {
        self.bits == 0
    }

    /// Whether no card is in both hands.
    pub fn is_disjoint(self, other: Hand) -> bool
        ensures { IsTrue result ↔ AreDisjoint self other }
    {
        self.bits & other.bits == 0
    }

    /// What the hand holds in a suit.
    fn holding(self, suit: Suit) -> Holding
        ensures hand { result.hand ≡ self }
        ensures suit { result.suit ≡ suit }
    {
        Holding { hand: self, suit }
    }
}

impl PartialEq for Hand {
    ghost use Rattle.std.specs.Cmp.{on_per, partial_equiv_from_equiv, nat_eq_equiv};
    ghost use Rattle.cards.specs.Cards.{bits_of_cards, are_same};

    ghost eq = { are_same };

    ghost laws = { on_per bits_of_cards (partial_equiv_from_equiv nat_eq_equiv) };

    fn eq(&self, other: &Hand) -> bool {
        self.bits == other.bits
    }
}

impl Eq for Hand {
    ghost use Rattle.std.specs.Cmp.{on_equiv, nat_eq_equiv};
    ghost use Rattle.cards.specs.Cards.{bits_of_cards};

    ghost laws = { on_equiv bits_of_cards nat_eq_equiv };
}

/// The suits from the spades down, each from the ace down, with a dot between them: `AKQ.JT.98765.432`.
impl fmt::Display for Hand {
    ghost use Rattle.std.specs.Prelude.{Some};
    ghost use Rattle.cards.specs.HandText.{hand_text};

    ghost output = { λ hand. Some (hand_text hand) };

    fn fmt<W: fmt::Write>(&self, f: &mut fmt::Formatter<W>) -> fmt::Result {
        let spades = self.holding(Suit::Spades);
        let hearts = self.holding(Suit::Hearts);
        let diamonds = self.holding(Suit::Diamonds);
        let clubs = self.holding(Suit::Clubs);
        write!(f, "{spades}.{hearts}.{diamonds}.{clubs}")
    }
}
