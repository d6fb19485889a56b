//! A journal is taken up: made where there is no table, read where it is there.

ghost use Rattle.std.specs.Prelude.{◌≡◌, ◌⊎◌, ◌∷◌, [], None, false, true, List, map, IfOk, IfErr, MatchResult};
ghost use Rattle.sqlite.specs.State.{HasCleanDisk};
ghost use Rattle.sqlite.specs.Held.{state};
ghost use Rattle.journal_store.specs.Tables.{RowBytes, no_schema, journal_schema, session_row};
ghost use Rattle.journal_store.specs.Kept.{texts_of, Keeps};
ghost use Rattle.journal_store.specs.Faults.{is_failure, ComesOf, IsUnmade};
ghost use Rattle.journal_store.specs.Taken.{IsIdle, TakesUp, RefusesJournal, LeavesMade, LeavesFirst};

use crate::creating::create;
use crate::reading::{is_session, read_entries};
use crate::row_text::RowText;
use crate::tables::{is_blank_schema, is_journal};
use crate::take_fault::{TakeFault, fault_of, fault_of_making};
use sqlite::{Alter, Connection};
use std::alloc::Global;

/// Takes up the journal of a session, by the texts of its object and of its boards, and gives the texts of its entries.
/// A blank database becomes a journal with no entry; any other is read, and nothing in it is changed.
pub fn take_up<S: Alter>(
    alloc: Global,
    conn: &mut Connection<S>,
    object: &str,
    boards: &[u8],
) -> Result<Vec<RowText>, TakeFault>
    requires alone { conn.old.in_transaction ≡ false }
    ensures alone { conn.new.in_transaction ≡ false }
    ensures clean { HasCleanDisk (state S.Store conn.new) → HasCleanDisk (state S.Store conn.old) }
    ensures takes { HasCleanDisk (state S.Store conn.new) → IsIdle (state S.Store conn.old)
        → IfOk result (λ rows. TakesUp (session_row object.now boards.now ∷ []) (map texts_of rows.items)
        (state S.Store conn.old) (state S.Store conn.new)) }
    ensures refuses { HasCleanDisk (state S.Store conn.new) → IsIdle (state S.Store conn.old)
        → IfErr result (RefusesJournal (session_row object.now boards.now ∷ []) (state S.Store conn.old).now) }
    ensures cause { HasCleanDisk (state S.Store conn.new) → IsIdle (state S.Store conn.old)
        → (state S.Store conn.old).step_limit ≡ None → IfErr result (λ fault. ComesOf (state S.Store conn.new) fault
        ⊎ IsUnmade (state S.Store conn.old).now fault) }
    ensures again { (rows : List RowBytes) → HasCleanDisk (state S.Store conn.new) → IsIdle (state S.Store conn.old)
        → Keeps (session_row object.now boards.now ∷ []) rows (state S.Store conn.old).now
        → MatchResult result (λ found. map texts_of found.items ≡ rows) (λ fault. is_failure fault ≡ true) }
    ensures leaves { HasCleanDisk (state S.Store conn.new) → IsIdle (state S.Store conn.old)
        → LeavesMade (session_row object.now boards.now ∷ []) (state S.Store conn.old) (state S.Store conn.new) }
    ensures first { HasCleanDisk (state S.Store conn.new) → IsIdle (state S.Store conn.old)
        → (state S.Store conn.old).now.schema ≡ no_schema
        → LeavesFirst (session_row object.now boards.now ∷ []) (state S.Store conn.new) }
{
    if is_blank_schema(conn.schema()) {
        return begin(alloc, conn, object, boards);
    }
    if !is_journal(conn.schema()) {
        return Err(TakeFault::NotAJournal);
    }
    go_on(alloc, conn, object, boards)
}

// A journal with no entry.
fn begin<S: Alter>(
    alloc: Global,
    conn: &mut Connection<S>,
    object: &str,
    boards: &[u8],
) -> Result<Vec<RowText>, TakeFault>
    requires alone { conn.old.in_transaction ≡ false }
    requires blank { (state S.Store conn.old).now.schema ≡ no_schema }
    ensures alone { conn.new.in_transaction ≡ false }
    ensures clean { HasCleanDisk (state S.Store conn.new) → HasCleanDisk (state S.Store conn.old) }
    ensures takes { HasCleanDisk (state S.Store conn.new) → IsIdle (state S.Store conn.old)
        → IfOk result (λ rows. TakesUp (session_row object.now boards.now ∷ []) (map texts_of rows.items)
        (state S.Store conn.old) (state S.Store conn.new)) }
    ensures refuses { HasCleanDisk (state S.Store conn.new) → IsIdle (state S.Store conn.old)
        → IfErr result (RefusesJournal (session_row object.now boards.now ∷ []) (state S.Store conn.old).now) }
    ensures cause { HasCleanDisk (state S.Store conn.new) → IsIdle (state S.Store conn.old)
        → (state S.Store conn.old).step_limit ≡ None → IfErr result (λ fault. ComesOf (state S.Store conn.new) fault
        ⊎ IsUnmade (state S.Store conn.old).now fault) }
    ensures leaves { HasCleanDisk (state S.Store conn.new) → IsIdle (state S.Store conn.old)
        → LeavesMade (session_row object.now boards.now ∷ []) (state S.Store conn.old) (state S.Store conn.new) }
{
    match create(conn, object, boards) {
        Ok(()) => Ok(Vec::new(alloc)),
        Err(error) => Err(fault_of_making(error)),
    }
}

// The journal that is there.
fn go_on<S: Alter>(
    alloc: Global,
    conn: &mut Connection<S>,
    object: &str,
    boards: &[u8],
) -> Result<Vec<RowText>, TakeFault>
    requires alone { conn.old.in_transaction ≡ false }
    requires journal { (state S.Store conn.old).now.schema ≡ journal_schema }
    ensures alone { conn.new.in_transaction ≡ false }
    ensures clean { HasCleanDisk (state S.Store conn.new) → HasCleanDisk (state S.Store conn.old) }
    ensures takes { HasCleanDisk (state S.Store conn.new) → IsIdle (state S.Store conn.old)
        → IfOk result (λ rows. TakesUp (session_row object.now boards.now ∷ []) (map texts_of rows.items)
        (state S.Store conn.old) (state S.Store conn.new)) }
    ensures refuses { HasCleanDisk (state S.Store conn.new) → IsIdle (state S.Store conn.old)
        → IfErr result (RefusesJournal (session_row object.now boards.now ∷ []) (state S.Store conn.old).now) }
    ensures cause { HasCleanDisk (state S.Store conn.new) → IsIdle (state S.Store conn.old)
        → (state S.Store conn.old).step_limit ≡ None → IfErr result (λ fault. ComesOf (state S.Store conn.new) fault
        ⊎ IsUnmade (state S.Store conn.old).now fault) }
    ensures leaves { HasCleanDisk (state S.Store conn.new) → IsIdle (state S.Store conn.old)
        → LeavesMade (session_row object.now boards.now ∷ []) (state S.Store conn.old) (state S.Store conn.new) }
{
    match is_session(conn, object, boards) {
        Ok(true) => {}
        Ok(false) => return Err(TakeFault::OtherSession),
        Err(error) => return Err(fault_of(error)),
    }
    match read_entries(alloc, conn) {
        Ok(Some(rows)) => Ok(rows),
        Ok(None) => Err(TakeFault::Misnumbered),
        Err(error) => Err(fault_of(error)),
    }
}
