ghost use Rattle.std.specs.Prelude.{◌≡◌, ℕ, ◌≤◌, ◌↔◌, [], true, IsTrue};
ghost use Rattle.small_sets.specs.Numbers.{has_number, with_number, without_number, numbers_of_both, IsSetUpTo, AreAmong};
ghost use Rattle.small_sets.specs.declared.number_set.TheConstants.{WIDEST};

use std::marker::Model;

/// The greatest number that a set can have at all.
pub const WIDEST: u8 = 128;

/// A set of numbers from 1 to `MOST`: clauses see the list of its numbers, ascending.
#[derive(Clone, Copy)]
pub struct NumberSet<const MOST: u8> {
    bits: u128,
}

impl<const MOST: u8> Model for NumberSet<MOST> {
    ghost use Rattle.std.specs.Prelude.{ℕ, ◌^◌, ◌<◌, ◌≤◌, List};
    ghost use Rattle.small_sets.specs.NumberBits.{numbers_of_bits, bits_of_numbers, bits_of_numbers_of_bits};
    ghost use Rattle.small_sets.specs.declared.number_set.TheConstants.{WIDEST};

    ghost Value = { List ℕ };

    ghost view = { λ set. numbers_of_bits MOST set.bits };

    ghost invariant = { λ set. (MOST ≤ WIDEST) × (set.bits < 2 ^ MOST) };

    ghost inverse = { λ numbers. record { bits = bits_of_numbers numbers } };

    ghost inverse_ok = { λ set kept i. record { bits = bits_of_numbers_of_bits MOST set.bits kept.1 i } };
}

impl<const MOST: u8> NumberSet<MOST> {
    /// No number.
    pub fn new() -> NumberSet<MOST>
        requires { MOST ≤ WIDEST }
        ensures { result ≡ [] }
    {
        NumberSet { bits: 0 }
    }

    /// Whether the number is in the set. No set has the number 0, or one above the most.
    pub fn contains(self, number: u8) -> bool
        ensures has { result ≡ has_number self.entry number }
        ensures up_to { IsSetUpTo MOST self.entry }
    {
        let bits = self.bits;
        if number < 1 || number > MOST {
            return false;
        }
        bits >> (number - 1) & 1 == 1
    }

    /// Adds a number, if it is not there already.
    pub fn insert(&mut self, number: u8)
        requires from { 1 ≤ number }
        requires to { number ≤ MOST }
        ensures { self.new ≡ with_number MOST self.old number }
    {
        let bits = self.bits;
        self.bits = bits | 1 << (number - 1);
    }

    /// Takes a number away, if it is there.
    pub fn remove(&mut self, number: u8)
        requires from { 1 ≤ number }
        requires to { number ≤ MOST }
        ensures { self.new ≡ without_number MOST self.old number }
    {
        let bits = self.bits;
        self.bits = bits & !(1 << (number - 1));
    }

    /// The numbers that are in either set.
    pub fn union(self, other: NumberSet<MOST>) -> NumberSet<MOST>
        ensures { result ≡ numbers_of_both MOST self.entry other.entry }
    {
        NumberSet {
            bits: self.bits | other.bits,
        }
    }

    /// Whether every number of this set is in the other.
    pub fn is_subset(self, other: NumberSet<MOST>) -> bool
        ensures { IsTrue result ↔ AreAmong self.entry other.entry }
    {
        self.bits & !other.bits == 0
    }
}

impl<const MOST: u8> PartialEq for NumberSet<MOST> {
    ghost use Rattle.std.specs.Cmp.{nat_eq_equiv, partial_equiv_from_equiv};
    ghost use Rattle.std.specs.Cmp.Lexicographic.{pointwise, lists_equiv};
    ghost use Rattle.std.specs.Prelude.{nat_eq};

    ghost eq = { pointwise nat_eq };

    ghost laws = { partial_equiv_from_equiv (lists_equiv nat_eq_equiv) };

    fn eq(&self, other: &NumberSet<MOST>) -> bool {
        self.bits == other.bits
    }
}

impl<const MOST: u8> Eq for NumberSet<MOST> {
    ghost use Rattle.std.specs.Cmp.{nat_eq_equiv};
    ghost use Rattle.std.specs.Cmp.Lexicographic.{lists_equiv};

    ghost laws = { lists_equiv nat_eq_equiv };
}
