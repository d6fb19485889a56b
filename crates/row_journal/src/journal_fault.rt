ghost use Rattle.std.specs.Prelude.{◌≡◌};
ghost use Rattle.row_journal.specs.Faults.{file_fault, rows_fault};

use journal_store::TakeFault;
use kept_entries::RowFault;
use thiserror::Error;

/// Why a journal isn't opened. The file is opened first, then its tables are compared, its session and the numbers of
/// its rows; then the rows are read, in their order, solved again and compared.
#[derive(Clone, Copy, Debug, PartialEq, Eq, Error)]
pub enum JournalFault {
    /// Memory was refused.
    #[error("OutOfMemory")]
    OutOfMemory,
    /// Another program has the file open.
    #[error("JournalBusy")]
    Busy,
    /// It is no database, or one whose parts don't fit each other.
    #[error("JournalDamaged")]
    Damaged,
    /// The disk or the system failed.
    #[error("JournalUnread")]
    Unread,
    /// There are tables, and they aren't a journal's.
    #[error("NotAJournal")]
    NotAJournal,
    /// It is the journal of another session.
    #[error("OtherSession")]
    OtherSession,
    /// Its rows aren't numbered from 1, their publications aren't, or there are too many.
    #[error("Misnumbered")]
    Misnumbered,
    /// The row of this number has texts that are no entry's.
    #[error("Unreadable({0})")]
    Unreadable(u32),
    /// What the solver found of the row of this number wasn't found again: visits or memory ran out.
    #[error("Unsolved({0})")]
    Unsolved(u32),
}

/// What a fault of the file is called here.
pub fn fault_of_file(fault: TakeFault) -> JournalFault
    ensures { result ≡ file_fault fault }
{
    match fault {
        TakeFault::Busy => JournalFault::Busy,
        TakeFault::Damaged => JournalFault::Damaged,
        TakeFault::Unread => JournalFault::Unread,
        TakeFault::OutOfMemory => JournalFault::OutOfMemory,
        TakeFault::NotAJournal => JournalFault::NotAJournal,
        TakeFault::OtherSession => JournalFault::OtherSession,
        TakeFault::Misnumbered => JournalFault::Misnumbered,
    }
}

/// What a fault of the rows is called here.
pub fn fault_of_rows(fault: RowFault) -> JournalFault
    ensures { result ≡ rows_fault fault }
{
    match fault {
        RowFault::OutOfMemory => JournalFault::OutOfMemory,
        RowFault::Misnumbered => JournalFault::Misnumbered,
        RowFault::Unreadable(number) => JournalFault::Unreadable(number),
        RowFault::Unsolved(number) => JournalFault::Unsolved(number),
    }
}
