//! The journal that is there already, whichever session it is of.

ghost use Rattle.std.specs.Prelude.{◌≡◌, ◌≢◌, ◌∷◌, [], None, true, false, map, IfOk, IfErr, MatchOption};
ghost use Rattle.sqlite.specs.State.{HasCleanDisk, Survives};
ghost use Rattle.sqlite.specs.Held.{state};
ghost use Rattle.sqlite.specs.Files.{file_state, IsCleanLeft};
ghost use Rattle.sqlite.specs.WalFiles.{image_at};
ghost use Rattle.journal_store.specs.Tables.{journal_schema};
ghost use Rattle.journal_store.specs.Kept.{texts_of, row_of_session};
ghost use Rattle.journal_store.specs.Faults.{is_failure, is_unopened, ComesOf, LeavesFor};
ghost use Rattle.journal_store.specs.Taken.{IsIdle, ReadsKept, RefusesToRead};
ghost use Rattle.journal_store.specs.Restart.{IsKeptAt, IsNotRead};

use crate::reading::{read_entries, read_session};
use crate::row_text::RowText;
use crate::session_text::SessionText;
use crate::tables::is_journal;
use crate::take_fault::{TakeFault, fault_of};
use sqlite::{Alter, Connection, FileFrom, FileStore, Leftover, Start};
use std::alloc::Global;
use std::rt::HostRuntime;

/// The texts of the session and of the entries of a journal that is there; a blank database has none. Nothing is
/// changed.
pub fn read_kept<S: Alter>(
    alloc: Global,
    conn: &mut Connection<S>,
) -> Result<(SessionText, Vec<RowText>), TakeFault>
    requires alone { conn.old.in_transaction ≡ false }
    ensures alone { conn.new.in_transaction ≡ false }
    ensures reads { HasCleanDisk (state S.Store conn.new) → IsIdle (state S.Store conn.old)
        → IfOk result (λ o. ReadsKept (row_of_session o.0 ∷ []) (map texts_of o.1.items)
        (state S.Store conn.old) (state S.Store conn.new)) }
    ensures refuses { HasCleanDisk (state S.Store conn.new) → IsIdle (state S.Store conn.old)
        → IfErr result (RefusesToRead (state S.Store conn.old).now) }
    ensures cause { HasCleanDisk (state S.Store conn.new) → IsIdle (state S.Store conn.old)
        → (state S.Store conn.old).step_limit ≡ None → IfErr result (ComesOf (state S.Store conn.new)) }
    ensures survives { Survives (state S.Store conn.old) (state S.Store conn.new) (λ _. ⊥) }
{
    if !is_journal(conn.schema()) {
        return Err(TakeFault::NotAJournal);
    }
    read_both(alloc, conn)
}

fn read_both<S: Alter>(
    alloc: Global,
    conn: &mut Connection<S>,
) -> Result<(SessionText, Vec<RowText>), TakeFault>
    requires alone { conn.old.in_transaction ≡ false }
    requires journal { (state S.Store conn.old).now.schema ≡ journal_schema }
    ensures alone { conn.new.in_transaction ≡ false }
    ensures reads { HasCleanDisk (state S.Store conn.new) → IsIdle (state S.Store conn.old)
        → IfOk result (λ o. ReadsKept (row_of_session o.0 ∷ []) (map texts_of o.1.items)
        (state S.Store conn.old) (state S.Store conn.new)) }
    ensures refuses { HasCleanDisk (state S.Store conn.new) → IsIdle (state S.Store conn.old)
        → IfErr result (RefusesToRead (state S.Store conn.old).now) }
    ensures cause { HasCleanDisk (state S.Store conn.new) → IsIdle (state S.Store conn.old)
        → (state S.Store conn.old).step_limit ≡ None → IfErr result (ComesOf (state S.Store conn.new)) }
    ensures survives { Survives (state S.Store conn.old) (state S.Store conn.new) (λ _. ⊥) }
{
    let session = match read_session(alloc, conn) {
        Ok(Some(session)) => session,
        Ok(None) => return Err(TakeFault::NotAJournal),
        Err(error) => return Err(fault_of(error)),
    };
    match read_entries(alloc, conn) {
        Ok(Some(rows)) => Ok((session, rows)),
        Ok(None) => Err(TakeFault::Misnumbered),
        Err(error) => Err(fault_of(error)),
    }
}

/// Opens the journal at a path, and gives the texts of its session and of its entries. It holds for any first contents
/// `S` of the files. Where there are none the open makes a blank database, and it is refused.
pub fn open_kept<S: Start>(
    rt: &HostRuntime,
    path: &str,
    start: S,
) -> Result<
    (
        Connection<FileStore<FileFrom<S>>>,
        SessionText,
        Vec<RowText>,
    ),
    (TakeFault, Option<Leftover<FileFrom<S>>>),
>
    ensures opens { IfOk result (λ o. HasCleanDisk (file_state o.0)
        → IsKeptAt (image_at S.Start) (row_of_session o.1 ∷ []) (map texts_of o.2.items) (file_state o.0)) }
    ensures alone { IfOk result (λ o. o.0.in_transaction ≡ false) }
    ensures refuses { IfErr result (λ e. MatchOption e.1 (is_failure e.0 ≡ true) (λ left. IsCleanLeft left
        → IsNotRead (image_at S.Start) e.0)) }
    ensures cause { IfErr result (λ e. MatchOption e.1 (is_unopened e.0 ≡ true) (λ left. IsCleanLeft left
        → LeavesFor (image_at S.Start) left e.0)) }
{
    let mut conn = match Connection::open_from(rt, path, true, start) {
        Ok(conn) => conn,
        Err((error, left)) => return Err((fault_of(error), left)),
    };
    match read_kept(rt.alloc(), &mut conn) {
        Ok((session, rows)) => Ok((conn, session, rows)),
        Err(fault) => Err((fault, Some(Leftover::Store(conn.into_store())))),
    }
}
