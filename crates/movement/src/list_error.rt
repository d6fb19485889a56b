use crate::misplaced_row::MisplacedRow;
use std::fmt;
use thiserror::Error;

/// Why no movement can be made of a list of rows.
#[derive(Clone, Copy, Debug, PartialEq, Eq, Error)]
pub enum ListError {
    /// Fewer than 3 tables, or more than 16.
    BadTables,
    /// No round.
    BadRounds,
    /// Fewer than 1 board in a set, more than 8, no set, more than 31 sets, or more than 128 boards in all.
    BadSets,
    /// A row that can't stand after those before it.
    BadRow(MisplacedRow),
    /// No row seats the pair that is absent.
    BadPair,
}

impl fmt::Display for ListError {
    fn fmt<W: fmt::Write>(&self, f: &mut fmt::Formatter<W>) -> fmt::Result {
        fmt::Debug::fmt(self, f)
    }
}
