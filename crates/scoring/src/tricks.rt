ghost use Rattle.std.specs.Prelude.{◌≡◌, ◌≤◌, SomeIff};

use std::marker::Model;

/// How many of the thirteen tricks declarer's side won, 0 to 13.
#[derive(Clone, Copy, PartialEq, Eq)]
pub struct Tricks {
    number: u8,
}

impl Model for Tricks {
    ghost use Rattle.std.specs.Prelude.{ℕ, ◌≤◌};

    ghost Value = { ℕ };

    ghost view = { λ tricks. tricks.number };

    ghost invariant = { λ tricks. tricks.number ≤ 13 };

    ghost inverse = { λ number. record { number = number } };
}

impl Tricks {
    /// That many tricks, if there are so many.
    pub fn new(number: u8) -> Option<Tricks>
        ensures { SomeIff result (number ≤ 13) number }
    {
        if number <= 13 {
            Some(Tricks { number })
        } else {
            None
        }
    }

    /// Their number, 0 to 13.
    pub fn number(self) -> u8
        ensures value { result ≡ self }
        ensures most { result ≤ 13 }
    {
        self.number
    }
}
