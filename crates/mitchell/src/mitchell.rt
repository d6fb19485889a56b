ghost use Rattle.std.specs.Prelude.{◌≡◌, ℕ, ◌+◌, ◌-◌, ◌<◌, ◌≤◌, Any, IfOk, IfErr, Contains, IsTrue, ◌↔◌};
ghost use Rattle.mitchell.specs.Mitchell.{MitchellSection, MitchellRow, IsMitchell, full_rows, is_absent, mitchell_rows, set_on};
ghost use Rattle.mitchell.specs.MitchellRow.{IsAtTable};
ghost use Rattle.small_sets.specs.First.{IsFirst};
ghost use Rattle.mitchell.specs.Refusal.{Refuses, number_of};
ghost use Rattle.mitchell.specs.declared.movement_error.MovementError.{MovementError};

use crate::arithmetic;
use crate::movement_error::MovementError;
use std::marker::Model;
use table_terms::{Pair, Side};

/// A plain Mitchell movement of one section. With an odd number of pairs one of them is absent: whoever would meet it
/// sits out (a half table).
#[derive(Clone, Copy)]
pub struct Mitchell {
    tables: u8,
    rounds: u8,
    per_set: u8,
    absent: Option<Pair>,
}

impl Model for Mitchell {
    ghost Value = { MitchellSection };

    ghost view = { λ m. record { tables = m.tables; rounds = m.rounds; per_set = m.per_set; absent = m.absent } };

    ghost invariant = { λ m.
        IsMitchell (record { tables = m.tables; rounds = m.rounds; per_set = m.per_set; absent = m.absent }) };

    ghost inverse = { λ s. record { tables = s.tables; rounds = s.rounds; per_set = s.per_set; absent = s.absent } };
}

impl Mitchell {
    /// How many tables a section has at least.
    pub const LEAST_TABLES: u8 = 3;

    /// How many tables a section has at most.
    pub const MOST_TABLES: u8 = 16;

    /// How many boards a set has at most.
    pub const MOST_PER_SET: u8 = 8;

    /// How many boards a section plays at most.
    pub const MOST_BOARDS: u8 = 128;

    /// The movement of a section of 3 to 16 tables, with `per_set` boards in a set, in which a pair may be absent.
    pub fn new(
        tables: u8,
        rounds: u8,
        per_set: u8,
        absent: Option<Pair>,
    ) -> Result<Mitchell, MovementError>
        ensures section { IfOk result (λ section.
            section ≡ record { tables = tables; rounds = rounds; per_set = per_set; absent = absent }) }
        ensures allowed { IfOk result (λ section. (error : MovementError) → ¬ Refuses error section) }
        ensures refused { IfErr result (IsFirst number_of (λ error.
            Refuses error (record { tables = tables; rounds = rounds; per_set = per_set; absent = absent }))) }
    {
        if tables < Mitchell::LEAST_TABLES || tables > Mitchell::MOST_TABLES {
            return Err(MovementError::BadTables);
        }
        if rounds < 1 || rounds > arithmetic::most_rounds(tables) {
            return Err(MovementError::BadRounds);
        }
        if per_set < 1
            || per_set > Mitchell::MOST_PER_SET
            || tables * per_set > Mitchell::MOST_BOARDS
        {
            return Err(MovementError::BadSets);
        }
        if let Some(pair) = absent {
            if pair.number < 1 || pair.number > tables {
                return Err(MovementError::BadPair);
            }
        }
        Ok(Mitchell {
            tables,
            rounds,
            per_set,
            absent,
        })
    }

    /// How many tables the section has.
    pub fn tables(self) -> u8
        ensures tables { result ≡ self.tables }
        ensures section { IsMitchell self }
    {
        self.tables
    }

    /// How many rounds are played.
    pub fn rounds(self) -> u8
        ensures rounds { result ≡ self.rounds }
        ensures section { IsMitchell self }
    {
        self.rounds
    }

    /// How many boards a set has.
    pub fn per_set(self) -> u8
        ensures per_set { result ≡ self.per_set }
        ensures section { IsMitchell self }
    {
        self.per_set
    }

    /// The pair that isn't there, if one isn't.
    pub fn absent(self) -> Option<Pair>
        ensures absent { result ≡ self.absent }
        ensures section { IsMitchell self }
    {
        self.absent
    }

    /// Whether a table plays in a round: both pairs there are present.
    pub fn plays(self, table: u8, round: u8) -> bool
        requires from_table { 1 ≤ table }
        requires to_table { table ≤ self.tables }
        requires from_round { 1 ≤ round }
        requires to_round { round ≤ self.rounds }
        ensures { IsTrue result ↔ Any (λ row. IsAtTable row table round) (mitchell_rows self) }
    {
        let north_south = Pair {
            side: Side::NorthSouth,
            number: table,
        };
        let east_west = self.ew_at(table, round);
        !self.is_absent(north_south) && !self.is_absent(east_west)
    }

    /// The set on a table in a round, from 1.
    pub fn set_at(self, table: u8, round: u8) -> u8
        requires from_table { 1 ≤ table }
        requires to_table { table ≤ self.tables }
        requires from_round { 1 ≤ round }
        requires to_round { round ≤ self.rounds }
        ensures { result ≡ set_on self.tables (table - 1) (round - 1) + 1 }
    {
        arithmetic::set_on(self.tables, table - 1, round - 1) + 1
    }

    /// The East-West pair at a table in a round, or that would be there if it were present.
    pub fn ew_at(self, table: u8, round: u8) -> Pair
        requires from_table { 1 ≤ table }
        requires to_table { table ≤ self.tables }
        requires from_round { 1 ≤ round }
        requires to_round { round ≤ self.rounds }
        ensures row { Any (λ row. IsAtTable row table round × (row.east_west ≡ result)) (full_rows self) }
        ensures played { (row : MitchellRow) → Contains (mitchell_rows self) row → IsAtTable row table round →
            row.east_west ≡ result }
        ensures number { (1 ≤ result.number) × (result.number ≤ self.tables) }
        ensures section { IsMitchell self }
    {
        let east_west = arithmetic::east_west_at(self.tables, table - 1, round - 1);
        Pair {
            side: Side::EastWest,
            number: east_west + 1,
        }
    }

    /// Whether a pair is the one that isn't there.
    #[tactic(auto, using(crate::proofs::PairTests::pair_decides))]
    pub fn is_absent(self, pair: Pair) -> bool
        ensures { result ≡ is_absent self.absent pair }
    {
        match self.absent {
            None => false,
            Some(absent) => absent == pair,
        }
    }
}
