use std::fmt;
use thiserror::Error;

/// Why no movement can be made of these numbers.
#[derive(Clone, Copy, Debug, PartialEq, Eq, Error)]
pub enum MovementError {
    /// Fewer than 3 tables, or more than 16.
    BadTables,
    /// No round, or more rounds than can be played without a pair meeting a set or an opponent again.
    BadRounds,
    /// Fewer than 1 board in a set, more than 8, or more than 128 boards in all.
    BadSets,
    /// The absent pair has the number 0, or one above the tables.
    BadPair,
}

impl fmt::Display for MovementError {
    fn fmt<W: fmt::Write>(&self, f: &mut fmt::Formatter<W>) -> fmt::Result {
        fmt::Debug::fmt(self, f)
    }
}
