//! The journal at a path.

ghost use Rattle.std.specs.Prelude.{◌≡◌, ◌⊎◌, ◌∷◌, [], true, false, List, map, IfOk, IfErr, MatchOption, MatchResult};
ghost use Rattle.sqlite.specs.State.{HasCleanDisk};
ghost use Rattle.sqlite.specs.Files.{file_state, IsCleanLeft};
ghost use Rattle.sqlite.specs.WalFiles.{image_at};
ghost use Rattle.journal_store.specs.Tables.{RowBytes, session_row};
ghost use Rattle.journal_store.specs.Kept.{texts_of};
ghost use Rattle.journal_store.specs.Faults.{is_failure, is_unopened, LeavesFor};
ghost use Rattle.journal_store.specs.Restart.{IsTakenUp, IsRefusedJournal, IsUnmadeAt, HoldsRows};

use crate::row_text::RowText;
use crate::take_fault::{TakeFault, fault_of};
use crate::taking::take_up;
use sqlite::{Connection, FileFrom, FileStore, Leftover, Start};
use std::rt::HostRuntime;

/// Opens the journal of a session at a path, or makes it, and gives the texts of its entries. It holds for any first
/// contents `S` of the files. A refusal comes with what is left of the files, once they were opened.
pub fn open_journal<S: Start>(
    rt: &HostRuntime,
    path: &str,
    start: S,
    object: &str,
    boards: &[u8],
) -> Result<
    (Connection<FileStore<FileFrom<S>>>, Vec<RowText>),
    (TakeFault, Option<Leftover<FileFrom<S>>>),
>
    ensures opens { IfOk result (λ o. HasCleanDisk (file_state o.0)
        → IsTakenUp (image_at S.Start) (session_row object.now boards.now ∷ []) (map texts_of o.1.items)
        (file_state o.0)) }
    ensures alone { IfOk result (λ o. o.0.in_transaction ≡ false) }
    ensures refuses { IfErr result (λ e. MatchOption e.1 (is_failure e.0 ≡ true) (λ left. IsCleanLeft left
        → IsRefusedJournal (image_at S.Start) (session_row object.now boards.now ∷ []) e.0)) }
    ensures cause { IfErr result (λ e. MatchOption e.1 (is_unopened e.0 ≡ true) (λ left. IsCleanLeft left
        → LeavesFor (image_at S.Start) left e.0 ⊎ IsUnmadeAt (image_at S.Start) e.0)) }
    ensures again { (rows : List RowBytes) → HoldsRows (image_at S.Start) (session_row object.now boards.now ∷ []) rows
        → MatchResult result (λ o. HasCleanDisk (file_state o.0) → map texts_of o.1.items ≡ rows)
        (λ e. MatchOption e.1 (is_failure e.0 ≡ true) (λ left. IsCleanLeft left → is_failure e.0 ≡ true)) }
{
    let mut conn = match Connection::open_from(rt, path, true, start) {
        Ok(conn) => conn,
        Err((error, left)) => return Err((fault_of(error), left)),
    };
    match take_up(rt.alloc(), &mut conn, object, boards) {
        Ok(rows) => Ok((conn, rows)),
        Err(fault) => Err((fault, Some(Leftover::Store(conn.into_store())))),
    }
}
