//! What is left of a journal's files where nothing comes of it.
//!
//! These are functions over any disk, since each that asks something of a store of files by its bound alone proves all that the
//! bound says of such a store once more.

ghost use Rattle.sqlite.specs.Files.{file_state, IsCleanLeft};
ghost use Rattle.sqlite.specs.State.{HasCleanDisk};

use row_journal::{FoundJournal, RowJournal};
use sqlite::{FileStore, Leftover};
use sqlite_disk::Disk;

/// The files of a journal that is let go.
pub fn left_of_journal<D: Disk + Drop>(journal: RowJournal<FileStore<D>>) -> Leftover<D>
    ensures { IsCleanLeft result → HasCleanDisk (file_state journal.conn) }
{
    Leftover::Store(journal.into_connection().into_store())
}

/// The files of a journal that is let go before its rows are read.
pub(crate) fn left_of_found<D: Disk + Drop>(found: FoundJournal<FileStore<D>>) -> Leftover<D>
    ensures { IsCleanLeft result → HasCleanDisk (file_state found.conn) }
{
    Leftover::Store(found.into_connection().into_store())
}
