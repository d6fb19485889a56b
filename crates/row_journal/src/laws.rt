//! What holds over a crash and the start after it.

ghost use Rattle.std.specs.Prelude.{◌≡◌, ◌∷◌, [], ℕ, IsUtf8, List, map};
ghost use Rattle.sqlite.specs.Order.{Row};
ghost use Rattle.sqlite.specs.View.{IsClean};
ghost use Rattle.sqlite.specs.Recovery.{Image};
ghost use Rattle.sqlite.specs.Files.{file_state};
ghost use Rattle.sqlite.specs.declared.file.Leftover.{Leftover};
ghost use Rattle.sqlite.specs.Held.{state};
ghost use Rattle.sqlite.specs.FileStore.{state as files_state, view};
ghost use Rattle.session_commands.specs.declared.entry.Entry.{Entry};
ghost use Rattle.session_state.specs.SessionState.{SessionState};
ghost use Rattle.session_book.specs.Journal.{IsAccepted};
ghost use Rattle.history.specs.Prefixes.{entries_of};
ghost use Rattle.journal_store.specs.declared.row_text.RowText.{RowText};
ghost use Rattle.journal_store.specs.Tables.{RowBytes, session_row};
ghost use Rattle.journal_store.specs.Kept.{texts_of};
ghost use Rattle.journal_store.specs.Restart.{AreFound, HoldsRows};
ghost use Rattle.kept_entries.specs.KeptRows.{AreKeepable, rows_of};
ghost use Rattle.row_journal.specs.declared.journal_fault.JournalFault.{JournalFault as Fault};
ghost use Rattle.row_journal.specs.Faults.{IsOutage, IsOpeningWant, WhyNotKept, WhyNotTaken, WhyRowsNotRead};
ghost use Rattle.row_journal.specs.Leaving.{HoldsPublications, IsFoundNext, LeavesAccepted, LeavesPublications};

use crate::row_journal::RowJournal;
use sqlite::{Alter, FileStore};
use sqlite_disk::Disk;

/// Whatever a crash leaves of the two files holds a journal, of publications that the store says a crash leaves.
pub fn a_crash_leaves_publications<D: Disk + Drop>(
    journal: RowJournal<FileStore<D>>,
) -> FileStore<D>
    ensures { IsClean (view result) → (left : Image) → (files_state result).may_leave left
        → HoldsPublications left (LeavesPublications (file_state journal.conn)) }
{
    journal.into_connection().into_store()
}

/// A start that takes up such files finds publications that the store says a crash leaves.
pub fn the_next_start_finds_what_a_crash_leaves<S: Alter>(journal: &RowJournal<S>)
    ensures { (left : Image) (again : List Row) (found : List (List Entry))
        → HoldsPublications left (LeavesPublications (state S.Store journal.now.conn))
        → AreFound left again (rows_of found) → AreKeepable found
        → ∥ LeavesPublications (state S.Store journal.now.conn) found ∥₁ }
{
    let _journal = journal;
}

/// Where the session accepts whatever publications a crash leaves, an image that it leaves has the rows of such
/// publications: what the next start opens, reads and enters again.
pub fn what_a_crash_leaves_is_accepted<S: Alter>(journal: &RowJournal<S>)
    ensures { (opening : SessionState) (left : Image) → LeavesAccepted opening (state S.Store journal.now.conn)
        → HoldsPublications left (LeavesPublications (state S.Store journal.now.conn))
        → ∥ IsFoundNext opening left (LeavesPublications (state S.Store journal.now.conn)) ∥₁ }
{
    let _journal = journal;
}

/// Once the files are opened, no start refuses such an image, but for memory, a disk that has failed since, or a file that is as
/// long as one can be: neither with the session's texts nor by the journal alone. And none refuses the rows that it found there,
/// but for memory or visits.
pub fn no_start_refuses_what_a_crash_leaves<D: Disk>()
    ensures opened { (image : Image) (session : List Row) (rows : List RowBytes) (left : Leftover D D.Disk) (fault : Fault)
        → HoldsRows image session rows → WhyNotTaken image session left fault → IsOutage left fault }
    ensures alone { (image : Image) (object boards : List ℕ) (rows : List RowBytes) (left : Leftover D D.Disk) (fault : Fault)
        → IsUtf8 object → HoldsRows image (session_row object boards ∷ []) rows → WhyNotKept image left fault
        → IsOutage left fault }
    ensures read { (opening : SessionState) (found : List RowText) (published : List (List Entry)) (fault : Fault)
        → AreKeepable published → IsAccepted opening (entries_of published) → map texts_of found ≡ rows_of published
        → WhyRowsNotRead found fault → IsOpeningWant fault }
{}
