//! Journals at paths, as a runtime opens them.

ghost use Rattle.std.specs.Prelude.{◌≡◌, ◌⊎◌, ◌∷◌, [], true, false, List, map, IfOk, IfErr, MatchOption, MatchResult};
ghost use Rattle.sqlite.specs.State.{HasCleanDisk};
ghost use Rattle.sqlite.specs.Files.{file_state, IsCleanLeft};
ghost use Rattle.sqlite.specs.WalFiles.{image_at};
ghost use Rattle.journal_store.specs.Tables.{RowBytes, session_row};
ghost use Rattle.journal_store.specs.Kept.{texts_of, row_of_session};
ghost use Rattle.journal_store.specs.Faults.{is_failure, is_unopened, LeavesFor};
ghost use Rattle.journal_store.specs.Restart.{IsTakenUp, IsRefusedJournal, IsUnmadeAt, HoldsRows, IsKeptAt, IsNotRead};

use crate::kept::open_kept;
use crate::opening::open_journal;
use crate::row_text::RowText;
use crate::session_text::SessionText;
use crate::take_fault::TakeFault;
use sqlite::{Connection, FileFrom, FileStore, Leftover, Start};
use std::rt::HostRuntime;

/// What opens the journal at a path, so that code over any runtime may.
pub trait JournalFiles {
    /// As `open_journal`.
    fn open_journal_at<S: Start>(
        &self,
        path: &str,
        start: S,
        object: &str,
        boards: &[u8],
    ) -> Result<
        (Connection<FileStore<FileFrom<S>>>, Vec<RowText>),
        (TakeFault, Option<Leftover<FileFrom<S>>>),
    >
        ensures opens { IfOk result (λ o. HasCleanDisk (file_state o.0)
            → IsTakenUp (image_at S.Start) (session_row object.now boards.now ∷ []) (map texts_of o.1.items)
            (file_state o.0)) }
        ensures alone { IfOk result (λ o. o.0.in_transaction ≡ false) }
        ensures refuses { IfErr result (λ e. MatchOption e.1 (is_failure e.0 ≡ true) (λ left. IsCleanLeft left
            → IsRefusedJournal (image_at S.Start) (session_row object.now boards.now ∷ []) e.0)) }
        ensures cause { IfErr result (λ e. MatchOption e.1 (is_unopened e.0 ≡ true) (λ left. IsCleanLeft left
            → LeavesFor (image_at S.Start) left e.0 ⊎ IsUnmadeAt (image_at S.Start) e.0)) }
        ensures again { (rows : List RowBytes) → HoldsRows (image_at S.Start) (session_row object.now boards.now ∷ []) rows
            → MatchResult result (λ o. HasCleanDisk (file_state o.0) → map texts_of o.1.items ≡ rows)
            (λ e. MatchOption e.1 (is_failure e.0 ≡ true) (λ left. IsCleanLeft left → is_failure e.0 ≡ true)) };

    /// As `open_kept`.
    fn open_kept_at<S: Start>(
        &self,
        path: &str,
        start: S,
    ) -> Result<
        (
            Connection<FileStore<FileFrom<S>>>,
            SessionText,
            Vec<RowText>,
        ),
        (TakeFault, Option<Leftover<FileFrom<S>>>),
    >
        ensures opens { IfOk result (λ o. HasCleanDisk (file_state o.0)
            → IsKeptAt (image_at S.Start) (row_of_session o.1 ∷ []) (map texts_of o.2.items) (file_state o.0)) }
        ensures alone { IfOk result (λ o. o.0.in_transaction ≡ false) }
        ensures refuses { IfErr result (λ e. MatchOption e.1 (is_failure e.0 ≡ true) (λ left. IsCleanLeft left
            → IsNotRead (image_at S.Start) e.0)) }
        ensures cause { IfErr result (λ e. MatchOption e.1 (is_unopened e.0 ≡ true) (λ left. IsCleanLeft left
            → LeavesFor (image_at S.Start) left e.0)) };
}

impl JournalFiles for HostRuntime {
    fn open_journal_at<S: Start>(
        &self,
        path: &str,
        start: S,
        object: &str,
        boards: &[u8],
    ) -> Result<
        (Connection<FileStore<FileFrom<S>>>, Vec<RowText>),
        (TakeFault, Option<Leftover<FileFrom<S>>>),
    > {
        open_journal(self, path, start, object, boards)
    }

    fn open_kept_at<S: Start>(
        &self,
        path: &str,
        start: S,
    ) -> Result<
        (
            Connection<FileStore<FileFrom<S>>>,
            SessionText,
            Vec<RowText>,
        ),
        (TakeFault, Option<Leftover<FileFrom<S>>>),
    > {
        open_kept(self, path, start)
    }
}
