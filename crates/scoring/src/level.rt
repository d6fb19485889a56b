ghost use Rattle.std.specs.Prelude.{◌≡◌, ◌≤◌, SomeIff};

use std::marker::Model;

/// How many odd tricks a contract undertakes to win, 1 to 7: tricks beyond the first six (Law 18A).
#[derive(Clone, Copy, PartialEq, Eq)]
pub struct Level {
    number: u8,
}

impl Model for Level {
    ghost use Rattle.std.specs.Prelude.{ℕ, ◌≤◌};

    ghost Value = { ℕ };

    ghost view = { λ level. level.number };

    ghost invariant = { λ level. (1 ≤ level.number) × (level.number ≤ 7) };

    ghost inverse = { λ number. record { number = number } };
}

impl Level {
    /// The level of a number, if it is 1 to 7.
    pub fn new(number: u8) -> Option<Level>
        ensures { SomeIff result ((1 ≤ number) × (number ≤ 7)) number }
    {
        if 1 <= number && number <= 7 {
            Some(Level { number })
        } else {
            None
        }
    }

    /// Its number, 1 to 7.
    pub fn number(self) -> u8
        ensures value { result ≡ self }
        ensures least { 1 ≤ result }
        ensures most { result ≤ 7 }
    {
        self.number
    }
}
