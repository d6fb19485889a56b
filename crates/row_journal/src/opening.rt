//! A journal at a path is opened.

ghost use Rattle.std.specs.Prelude.{◌≡◌, ◌∷◌, [], true, List, map, IfOk, IfErr, MatchOption, MatchResult};
ghost use Rattle.sqlite.specs.State.{HasCleanDisk};
ghost use Rattle.sqlite.specs.Files.{file_state, IsCleanLeft};
ghost use Rattle.sqlite.specs.WalFiles.{image_at};
ghost use Rattle.journal_store.specs.Tables.{RowBytes, session_row};
ghost use Rattle.journal_store.specs.Kept.{texts_of, row_of_session};
ghost use Rattle.journal_store.specs.Restart.{IsTakenUp, IsKeptAt, HoldsRows};
ghost use Rattle.row_journal.specs.Faults.{WhyNotTaken, WhyNotKept, is_file_failure, is_file_unopened};

use crate::found_journal::FoundJournal;
use crate::journal_fault::{JournalFault, fault_of_file};
use journal_store::{JournalFiles, SessionText};
use sqlite::{FileFrom, FileStore, Leftover, Start};

/// Opens the journal of a session at a path, or makes it. A refusal comes with what is left of the files, once they were
/// opened.
pub fn open_row_journal<R: JournalFiles, S: Start>(
    rt: &R,
    path: &str,
    start: S,
    object: &str,
    boards: &[u8],
) -> Result<FoundJournal<FileStore<FileFrom<S>>>, (JournalFault, Option<Leftover<FileFrom<S>>>)>
    ensures opens { IfOk result (λ found. HasCleanDisk (file_state found.conn)
        → IsTakenUp (image_at S.Start) (session_row object.now boards.now ∷ []) (map texts_of found.rows)
        (file_state found.conn)) }
    ensures refuses { IfErr result (λ e. MatchOption e.1 (is_file_unopened e.0 ≡ true) (λ left. IsCleanLeft left
        → WhyNotTaken (image_at S.Start) (session_row object.now boards.now ∷ []) left e.0)) }
    ensures again { (rows : List RowBytes) → HoldsRows (image_at S.Start) (session_row object.now boards.now ∷ []) rows
        → MatchResult result (λ found. HasCleanDisk (file_state found.conn) → map texts_of found.rows ≡ rows)
        (λ e. MatchOption e.1 (is_file_failure e.0 ≡ true) (λ left. IsCleanLeft left → is_file_failure e.0 ≡ true)) }
{
    match rt.open_journal_at(path, start, object, boards) {
        Ok((conn, rows)) => Ok(FoundJournal::new(conn, rows)),
        Err((fault, left)) => Err((fault_of_file(fault), left)),
    }
}

/// Opens the journal that is at a path, and gives the texts of its session beside it. Where there is none the open
/// makes a blank database, and it is refused. A refusal comes with what is left of the files, once they were opened.
pub fn open_kept_journal<R: JournalFiles, S: Start>(
    rt: &R,
    path: &str,
    start: S,
) -> Result<
    (SessionText, FoundJournal<FileStore<FileFrom<S>>>),
    (JournalFault, Option<Leftover<FileFrom<S>>>),
>
    ensures opens { IfOk result (λ kept. HasCleanDisk (file_state kept.1.conn)
        → IsKeptAt (image_at S.Start) (row_of_session kept.0 ∷ []) (map texts_of kept.1.rows)
        (file_state kept.1.conn)) }
    ensures refuses { IfErr result (λ e. MatchOption e.1 (is_file_unopened e.0 ≡ true) (λ left. IsCleanLeft left
        → WhyNotKept (image_at S.Start) left e.0)) }
{
    match rt.open_kept_at(path, start) {
        Ok((conn, session, rows)) => Ok((session, FoundJournal::new(conn, rows))),
        Err((fault, left)) => Err((fault_of_file(fault), left)),
    }
}
