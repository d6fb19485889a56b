ghost use Rattle.std.specs.Prelude.{◌≡◌, ◌≤◌, [], length};

use std::marker::Model;

/// What each card of a play costs the side that plays it, in tricks: at most 52 numbers, which lie in the value itself.
#[derive(Clone, Copy)]
pub struct Costs {
    numbers: [u8; 52],
    len: u8,
}

impl Model for Costs {
    ghost use Rattle.std.specs.Prelude.{List, ℕ};

    ghost Value = { List ℕ };

    ghost use Rattle.solver_results.specs.CostPlaces.{IsCosts, numbers_of, number_places, number_places-numbers_of};

    ghost view = { numbers_of };

    ghost invariant = { IsCosts };

    ghost inverse = { number_places };

    ghost inverse_ok = { number_places-numbers_of };
}

impl Costs {
    /// The costs of a play without cards.
    #[tactic(auto, using(crate::proofs::CostsLemmas::no_places))]
    pub fn none() -> Costs
        ensures { result ≡ [] }
    {
        Costs {
            numbers: [0; 52],
            len: 0,
        }
    }

    /// These numbers.
    pub fn of(numbers: &[u8]) -> Costs
        requires { length numbers.now ≤ 52 }
        ensures { result ≡ numbers.now }
    {
        let len = numbers.len();
        let mut places = [0; 52];
        places[..len].copy_from_slice(numbers);
        Costs {
            numbers: places,
            len: len as u8,
        }
    }

    /// The numbers, in the order of the cards.
    pub fn as_slice(&self) -> &[u8]
        ensures numbers { result.now ≡ self.now }
        ensures few { length result.now ≤ 52 }
    {
        &self.numbers[..self.len as usize]
    }
}
