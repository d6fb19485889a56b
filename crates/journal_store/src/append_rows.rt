//! A publication's rows are added as one transaction.

ghost use Rattle.std.specs.Prelude.{◌≡◌, ◌+◌, ◌^◌, ◌<◌, ◌≤◌, false, List, [], ◌∷◌, map, length, OnOk};
ghost use Rattle.sqlite.specs.Order.{Row};
ghost use Rattle.sqlite.specs.State.{HasCleanDisk, IsUnchanged, Survives};
ghost use Rattle.sqlite.specs.Held.{state};
ghost use Rattle.journal_store.specs.Tables.{RowBytes};
ghost use Rattle.journal_store.specs.Kept.{texts_of, most_entry_rows, StaysInside, AddsRows, Rests, IsNextPublication, Adds, Appends};

use crate::row_text::RowText;
use sqlite::{Alter, Connection, Error, Transaction, params};

/// Why a publication isn't added.
#[derive(Clone, Copy, Debug, PartialEq, Eq)]
pub enum AppendFault {
    /// None of its rows is there, and no crash leaves one. The next may be added.
    NotKept,
    /// It isn't known: the next start may find all of its rows, or none. The database may be shut.
    Unsure,
}

/// Adds a publication's rows, numbered from `first` on behind those that are there, all or none, and makes them last:
/// once it returns with `Ok`, every crash leaves them.
pub fn append<S: Alter>(
    conn: &mut Connection<S>,
    first: u32,
    rows: &[RowText],
) -> Result<(), AppendFault>
    requires alone { conn.old.in_transaction ≡ false }
    requires fits { first + length rows.now ≤ most_entry_rows + 1 }
    ensures alone { conn.new.in_transaction ≡ false }
    ensures clean { HasCleanDisk (state S.Store conn.new) → HasCleanDisk (state S.Store conn.old) }
    ensures appends { (session : List Row) (before : List RowBytes) → HasCleanDisk (state S.Store conn.new)
        → Rests session before (state S.Store conn.old) → first ≡ 1 + length before
        → IsNextPublication before (map texts_of rows.now)
        → Appends session before (map texts_of rows.now) (state S.Store conn.new) result }
{
    match add(conn, first, rows) {
        Ok(()) => Ok(()),
        Err(_) => Err(fault_after(conn)),
    }
}

// The rows are added, or the transaction is undone.
fn add<S: Alter>(conn: &mut Connection<S>, first: u32, rows: &[RowText]) -> Result<(), Error>
    requires alone { conn.old.in_transaction ≡ false }
    requires fits { first + length rows.now ≤ most_entry_rows + 1 }
    ensures alone { conn.new.in_transaction ≡ false }
    ensures clean { HasCleanDisk (state S.Store conn.new) → HasCleanDisk (state S.Store conn.old) }
    ensures adds { (session : List Row) (before : List RowBytes) → HasCleanDisk (state S.Store conn.new)
        → Rests session before (state S.Store conn.old) → first ≡ 1 + length before
        → IsNextPublication before (map texts_of rows.now)
        → Adds session before (map texts_of rows.now) (state S.Store conn.new) result }
{
    let mut tx = conn.transaction();
    insert_all(&mut tx, first, rows)?;
    tx.commit()
}

// Only a database that is still open compiles a statement, and then nothing of the transaction is left.
fn fault_after<S: Alter>(conn: &mut Connection<S>) -> AppendFault
    requires alone { conn.old.in_transaction ≡ false }
    ensures alone { conn.new.in_transaction ≡ false }
    ensures clean { HasCleanDisk (state S.Store conn.new) → HasCleanDisk (state S.Store conn.old) }
    ensures survives { Survives (state S.Store conn.old) (state S.Store conn.new) (λ _. ⊥) }
    ensures open { HasCleanDisk (state S.Store conn.new) → result ≡ AppendFault.NotKept
        → IsUnchanged (state S.Store conn.old) (state S.Store conn.new) }
{
    match conn.prepare("SELECT number FROM session") {
        Ok(_) => AppendFault::NotKept,
        Err(_) => AppendFault::Unsure,
    }
}

// One row more, inside a transaction.
fn insert<S: Alter>(tx: &mut Transaction<'_, S>, number: u32, row: &RowText) -> Result<usize, Error>
    ensures same_reference { tx.new.conn.ghost_name ≡ tx.old.conn.ghost_name }
    ensures ok { OnOk result (AddsRows (state S.Store tx.old.conn.now) (state S.Store tx.new.conn.now) number
        (texts_of row.now ∷ [])) }
    ensures inside { StaysInside (state S.Store tx.old.conn.now) (state S.Store tx.new.conn.now) }
{
    tx.execute(
        "INSERT INTO entry (number, publication, actor, command) VALUES (?1, ?2, ?3, ?4)",
        params![number, row.publication, &row.actor, &row.command],
    )
}

// One row after another, inside a transaction.
fn insert_all<S: Alter>(
    tx: &mut Transaction<'_, S>,
    first: u32,
    rows: &[RowText],
) -> Result<(), Error>
    requires { first + length rows.now < 2 ^ 32 }
    ensures same_reference { tx.new.conn.ghost_name ≡ tx.old.conn.ghost_name }
    ensures ok { OnOk result (AddsRows (state S.Store tx.old.conn.now) (state S.Store tx.new.conn.now) first
        (map texts_of rows.now)) }
    ensures inside { StaysInside (state S.Store tx.old.conn.now) (state S.Store tx.new.conn.now) }
{
    'rows: for place in 0..rows.len() {
        insert(tx, first + place as u32, &rows[place])?;
    }
    Ok(())
}
