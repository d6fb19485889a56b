ghost use Rattle.cards.specs.Play.{IsApart, is_of};
ghost use Rattle.position_patterns.specs.Remainder.{IsLeftOf, IsPartOf, IsTrueRemainder, all_held};
ghost use Rattle.position_patterns.specs.Tops.{IsPatternOf, pattern_of};
ghost use Rattle.double_dummy_laws.specs.Pattern.{holding};
ghost use Rattle.std.specs.Prelude.{◌≡◌, ◌<◌, All, IfOk, IsTrue, length};
ghost use Rattle.std.specs.FinSet as set;
ghost use Rattle.table_terms.specs.declared.suit.Suit.{Suit};
ghost use Rattle.std.proofs.Props.{props};

use crate::holders::Holders;
use crate::pattern::{Pattern, SuitPattern, place_number, place_weight, upper};
use cards::{Card, Hand, Rank};
use std::alloc::{AllocError, Global};
use table_terms::Suit;

/// The cards that are left of a suit, and their pattern.
#[derive(Clone, Copy)]
pub struct Remainder {
    pub suit: Suit,
    pub cards: Hand,
    pub pattern: SuitPattern,
}

/// The patterns of each suit of a deal, whichever cards are left of it.
#[derive(Drop)]
pub struct DealPatterns {
    pub whole: Holders,
    slots: Vec<Remainder>,
    ghost true_slots: { All (IsTrueRemainder whole) slots.items } by { Prim.hlevel props },
}

impl Holders {
    /// What a part of the deal has left of a suit.
    fn remainder(&self, part: &Holders, suit: Suit) -> Remainder
        requires { IsLeftOf self.now part.now }
        ensures { IsTrueRemainder self.now result }
    {
        Remainder {
            suit,
            cards: part.held(suit),
            pattern: part.suit_pattern(suit),
        }
    }

    /// What is left of a suit by a mask of its cards, below the suit's number: mostly one card more than a mask before it
    /// leaves. Those are the first of the slots.
    fn remainder_of(&self, slots: &[Remainder], number: u16) -> Remainder
        requires number { number < 32768 }
        requires apart { IsApart self.now }
        requires slots { All (IsTrueRemainder self.now) slots.now }
        ensures { IsTrueRemainder self.now result }
    {
        let suit = Suit::from_number((number / 8192) as u8);
        let mask = number % 8192;
        if mask != 0 {
            let height = mask.ilog2();
            let place = number.wrapping_sub(1 << height) as usize;
            if place < slots.len() {
                return self.raised(slots[place], Rank::from_height(height.min(12) as u8));
            }
        }
        let part = self.part(masked(suit, mask));
        self.remainder(&part, suit)
    }

    /// The same with one card more, if it is higher than those and a player was dealt it.
    fn raised(&self, less: Remainder, rank: Rank) -> Remainder
        requires apart { IsApart self.now }
        requires less { IsTrueRemainder self.now less }
        ensures { IsTrueRemainder self.now result }
    {
        let card = Card {
            suit: less.suit,
            rank,
        };
        if !upper(less.cards, card).is_empty() {
            return less;
        }
        let Some(place) = self.holder(card) else {
            return less;
        };
        let owners = less.pattern.owners;
        let lengths = less.pattern.lengths;
        // twelve cards have no greater numbers
        if owners >= 0x100_0000 {
            return less;
        }
        if lengths > 0xc000 {
            return less;
        }
        let mut cards = less.cards;
        cards.insert(card);
        Remainder {
            suit: less.suit,
            cards,
            pattern: SuitPattern {
                owners: place_number(place) + 4 * owners,
                lengths: place_weight(place) + lengths,
            },
        }
    }
}

/// The suit's cards by a mask, the lowest in the lowest bit.
fn masked(suit: Suit, mask: u16) -> Hand {
    let mut cards = Hand::new();
    'ranks: for height in 0..13u8 {
        if mask >> height & 1 == 1 {
            cards.insert(Card {
                suit,
                rank: Rank::from_height(height),
            });
        }
    }
    cards
}

/// Whether the sets have the same cards.
fn is_same(a: Hand, b: Hand) -> bool
    ensures { IsTrue result → a ≡ b }
{
    a == b
}

impl DealPatterns {
    /// The patterns of the deal.
    pub fn new(alloc: Global, whole: &Holders) -> Result<DealPatterns, AllocError>
        requires { IsApart whole.now }
        ensures { IfOk result (λ patterns. IsLeftOf patterns.whole whole.now) }
    {
        let mut slots = Vec::new(alloc);
        // whatever may be left of a suit: a mask of its thirteen cards
        'masks: for number in 0..32768u16 {
            let remainder = whole.remainder_of(&slots, number);
            slots.push(remainder)?;
        }
        Ok(DealPatterns {
            whole: *whole,
            slots,
        })
    }

    fn slot(&self, place: usize) -> Remainder
        requires { place < length self.now.slots.items }
        ensures { IsTrueRemainder self.now.whole result }
    {
        self.slots[place]
    }

    /// Who holds a suit's cards, and how many each player has.
    pub fn suit_pattern(&self, holders: &Holders, suit: Suit) -> SuitPattern
        requires { IsLeftOf self.now.whole holders.now }
        ensures { IsPatternOf result (holding holders.now suit) }
    {
        let cards = holders.held(suit);
        let number = suit as usize;
        let place = ((cards.word() >> (13 * number)) as usize & 8191) + 8192 * number;
        if place < self.slots.len() {
            let remainder = self.slot(place);
            if remainder.suit == suit && is_same(remainder.cards, cards) {
                return remainder.pattern;
            }
        }
        holders.suit_pattern(suit)
    }

    /// The patterns of the four suits.
    pub fn pattern(&self, holders: &Holders) -> Pattern
        requires { IsLeftOf self.now.whole holders.now }
        ensures { (suit : Suit) → IsPatternOf (pattern_of result suit) (holding holders.now suit) }
    {
        Pattern {
            spades: self.suit_pattern(holders, Suit::Spades),
            hearts: self.suit_pattern(holders, Suit::Hearts),
            diamonds: self.suit_pattern(holders, Suit::Diamonds),
            clubs: self.suit_pattern(holders, Suit::Clubs),
        }
    }
}
