//! What holds over a crash and the start after it.

ghost use Rattle.std.specs.Prelude.{◌≡◌, ◌⊎◌, ◌++◌, true, List};
ghost use Rattle.sqlite.specs.Order.{Row};
ghost use Rattle.sqlite.specs.Tree.{Trees};
ghost use Rattle.sqlite.specs.View.{IsClean};
ghost use Rattle.sqlite.specs.Recovery.{Image};
ghost use Rattle.sqlite.specs.Files.{file_state};
ghost use Rattle.sqlite.specs.FileStore.{state as files_state, view};
ghost use Rattle.journal_store.specs.declared.take_fault.TakeFault.{TakeFault as Fault};
ghost use Rattle.journal_store.specs.Tables.{RowBytes};
ghost use Rattle.journal_store.specs.Kept.{Rests, IsNextPublication, LeavesEither};
ghost use Rattle.journal_store.specs.Taken.{LeavesFirst};
ghost use Rattle.journal_store.specs.Faults.{is_failure};
ghost use Rattle.journal_store.specs.Restart.{AreFound, HoldsRows, HoldsEither, HoldsFirst, IsRefusedJournal, AreWhole};

use sqlite::{Connection, FileStore};
use sqlite_disk::Disk;

/// Whatever a crash leaves of the two files holds the journal, with just the rows that were acknowledged.
pub fn a_crash_leaves_the_journal<D: Disk + Drop>(conn: Connection<FileStore<D>>) -> FileStore<D>
    ensures { (session : List Row) (rows : List RowBytes) → IsClean (view result) → Rests session rows (file_state conn)
        → (left : Image) → (files_state result).may_leave left → HoldsRows left session rows }
{
    conn.into_store()
}

/// The same, after an append that failed: those before it, or all of its own too.
pub fn a_failed_append_leaves_all_or_none<D: Disk + Drop>(
    conn: Connection<FileStore<D>>,
) -> FileStore<D>
    ensures { (session : List Row) (before after : List RowBytes) → IsClean (view result)
        → LeavesEither session before after (file_state conn)
        → (left : Image) → (files_state result).may_leave left → HoldsEither left session before after }
{
    conn.into_store()
}

/// The same, while a journal is made: no table, or the journal with no entry.
pub fn a_crash_leaves_a_blank_or_a_new_journal<D: Disk + Drop>(
    conn: Connection<FileStore<D>>,
) -> FileStore<D>
    ensures { (session : List Row) → IsClean (view result) → LeavesFirst session (file_state conn)
        → (left : Image) → (files_state result).may_leave left → HoldsFirst left session }
{
    conn.into_store()
}

/// A run that takes up such files reads just these rows.
pub fn the_next_run_reads_them()
    ensures { (left : Image) (session again : List Row) (rows found : List RowBytes)
        → HoldsRows left session rows → AreFound left again found → found ≡ rows }
{}

/// Such files are refused by no start of the same session, but for memory, the disk or another program at the file.
pub fn no_crash_is_refused()
    ensures rows { (left : Image) (session : List Row) (rows : List RowBytes) (fault : Fault)
        → HoldsRows left session rows → IsRefusedJournal left session fault → is_failure fault ≡ true }
    ensures either { (left : Image) (session : List Row) (before after : List RowBytes) (fault : Fault)
        → HoldsEither left session before after → IsRefusedJournal left session fault → is_failure fault ≡ true }
    ensures first { (left : Image) (session : List Row) (fault : Fault)
        → HoldsFirst left session → IsRefusedJournal left session fault → is_failure fault ≡ true }
{}

/// What a run finds after an append that failed, or was cut off, is whole publications.
pub fn whole_publications_are_found()
    ensures { (left : Image) (session again : List Row) (before added found : List RowBytes)
        → HoldsEither left session before (before ++ added) → IsNextPublication before added
        → AreFound left again found → AreWhole (before ++ added) found }
{}
