//! The tables are made, with the texts of the session, as one transaction.
ghost use Rattle.std.specs.Prelude.{◌≡◌, false, [], ◌∷◌, OnOk};
ghost use Rattle.sqlite.specs.State.{HasCleanDisk};
ghost use Rattle.sqlite.specs.Held.{state};
ghost use Rattle.journal_store.specs.Tables.{session_row};
ghost use Rattle.journal_store.specs.Kept.{StaysInside};
ghost use Rattle.journal_store.specs.Made.{IsBlank, MakesSession, MakesEntry, FillsSession, MakesTables, Creates};

use sqlite::{Alter, Connection, Error, Transaction, params};

/// Makes the journal of a session, with no entry. All of it is there once this returns, or nothing.
pub fn create<S: Alter>(conn: &mut Connection<S>, object: &str, boards: &[u8]) -> Result<(), Error>
    requires alone { conn.old.in_transaction ≡ false }
    ensures alone { conn.new.in_transaction ≡ false }
    ensures clean { HasCleanDisk (state S.Store conn.new) → HasCleanDisk (state S.Store conn.old) }
    ensures creates { HasCleanDisk (state S.Store conn.new) → IsBlank (state S.Store conn.old)
        → Creates (session_row object.now boards.now ∷ []) (state S.Store conn.old) (state S.Store conn.new) result }
{
    let mut tx = conn.transaction();
    make(&mut tx, object, boards)?;
    tx.commit()
}

// The tables and the row, inside a transaction.
fn make<S: Alter>(tx: &mut Transaction<'_, S>, object: &str, boards: &[u8]) -> Result<(), Error>
    ensures same_reference { tx.new.conn.ghost_name ≡ tx.old.conn.ghost_name }
    ensures ok { OnOk result (MakesTables (session_row object.now boards.now ∷ [])
        (state S.Store tx.old.conn.now) (state S.Store tx.new.conn.now)) }
    ensures inside { StaysInside (state S.Store tx.old.conn.now) (state S.Store tx.new.conn.now) }
{
    make_session(tx)?;
    make_entry(tx)?;
    insert_session(tx, object, boards)?;
    Ok(())
}

fn make_session<S: Alter>(tx: &mut Transaction<'_, S>) -> Result<usize, Error>
    ensures same_reference { tx.new.conn.ghost_name ≡ tx.old.conn.ghost_name }
    ensures ok { OnOk result (MakesSession (state S.Store tx.old.conn.now) (state S.Store tx.new.conn.now)) }
    ensures inside { StaysInside (state S.Store tx.old.conn.now) (state S.Store tx.new.conn.now) }
{
    tx.execute(
        "CREATE TABLE session (number INTEGER PRIMARY KEY, object TEXT NOT NULL, boards BLOB NOT NULL) STRICT",
        &[],
    )
}

fn make_entry<S: Alter>(tx: &mut Transaction<'_, S>) -> Result<usize, Error>
    ensures same_reference { tx.new.conn.ghost_name ≡ tx.old.conn.ghost_name }
    ensures ok { OnOk result (MakesEntry (state S.Store tx.old.conn.now) (state S.Store tx.new.conn.now)) }
    ensures inside { StaysInside (state S.Store tx.old.conn.now) (state S.Store tx.new.conn.now) }
{
    tx.execute(
        "CREATE TABLE entry (number INTEGER PRIMARY KEY, publication INTEGER NOT NULL, actor TEXT NOT NULL, command TEXT NOT NULL) STRICT",
        &[],
    )
}

fn insert_session<S: Alter>(
    tx: &mut Transaction<'_, S>,
    object: &str,
    boards: &[u8],
) -> Result<usize, Error>
    ensures same_reference { tx.new.conn.ghost_name ≡ tx.old.conn.ghost_name }
    ensures ok { OnOk result (FillsSession (session_row object.now boards.now ∷ [])
        (state S.Store tx.old.conn.now) (state S.Store tx.new.conn.now)) }
    ensures inside { StaysInside (state S.Store tx.old.conn.now) (state S.Store tx.new.conn.now) }
{
    tx.execute(
        "INSERT INTO session (number, object, boards) VALUES (1, ?1, ?2)",
        params![object, boards],
    )
}
