//! Why a journal isn't taken up.

ghost use Rattle.std.specs.Prelude.{◌≡◌, ◌⊎◌, true};
ghost use Rattle.journal_store.specs.Faults.{fault_named, is_failure};

use sqlite::{Error, ErrorCode};

/// Why a journal isn't taken up.
#[derive(Clone, Copy, Debug, PartialEq, Eq)]
pub enum TakeFault {
    /// Another program has the file open.
    Busy,
    /// It is no database, or one whose pages don't fit each other or whose rows don't obey its tables.
    Damaged,
    /// The disk or the system failed.
    Unread,
    /// There is no memory.
    OutOfMemory,
    /// There are tables, and they aren't a journal's.
    NotAJournal,
    /// It is the journal of another session.
    OtherSession,
    /// Its entries aren't numbered from 1, their publications aren't, a text isn't UTF-8, or there are too many.
    Misnumbered,
}

/// What an error of the database is to one who takes up a journal.
pub(crate) fn fault_of(error: Error) -> TakeFault
    ensures failure { is_failure result ≡ true }
    ensures named { result ≡ fault_named error }
{
    match error {
        Error::SqliteFailure(ErrorCode::DatabaseBusy) => TakeFault::Busy,
        Error::SqliteFailure(ErrorCode::NotADatabase) => TakeFault::Damaged,
        Error::SqliteFailure(ErrorCode::DatabaseCorrupt) => TakeFault::Damaged,
        Error::SqliteFailure(ErrorCode::OutOfMemory) => TakeFault::OutOfMemory,
        _ => TakeFault::Unread,
    }
}

/// What an error of the database is to one who makes a journal in a database that was just opened and has no table.
pub(crate) fn fault_of_making(error: Error) -> TakeFault
    ensures failure { is_failure result ≡ true }
    ensures either { (result ≡ TakeFault.OutOfMemory) ⊎ (result ≡ TakeFault.Unread) }
{
    match error {
        Error::SqliteFailure(ErrorCode::OutOfMemory) => TakeFault::OutOfMemory,
        _ => TakeFault::Unread,
    }
}
