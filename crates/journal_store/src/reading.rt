//! Rows are read back in their order, and taken for a journal's where they are numbered from 1.

ghost use Rattle.std.specs.Prelude.{◌≡◌, ◌+◌, ◌^◌, ◌<◌, ◌∷◌, [], false, map, length, pos, string_bytes, IsUtf8, IfOk, IfErr, IfSome, IfNone, OnOk, IsPermutation, MatchBool, List, ℕ};
ghost use Rattle.sqlite.specs.State.{HasCleanDisk, IsUnchanged};
ghost use Rattle.sqlite.specs.Held.{state};
ghost use Rattle.sqlite.specs.Order.{column};
ghost use Rattle.sqlite.specs.declared.types.Value.TheVariants.{Int, Text as Words, Blob as Bytes};
ghost use Rattle.journal_store.specs.Tables.{RowBytes, journal_schema, session_row, entry_rows, shown_session, shown_entry};
ghost use Rattle.journal_store.specs.Kept.{texts_of, row_of_session, AreEntries};
ghost use Rattle.journal_store.specs.Reading.{IsRowOf, OnlyLooks, MayBeAsked};
ghost use Rattle.journal_store.specs.Faults.{IsExcused};

use crate::row_text::RowText;
use crate::session_text::SessionText;
use sqlite::types::ValueRef;
use sqlite::{Alter, Connection, Error, Row};
use std::alloc::{AllocError, Global};

/// How many entries a journal has at most.
pub const MOST_ROWS: usize = 60_000;

/// The texts of all rows of a table with the journal's schema, where they are a journal's.
pub(crate) fn read_entries<S: Alter>(
    alloc: Global,
    conn: &mut Connection<S>,
) -> Result<Option<Vec<RowText>>, Error>
    requires alone { conn.old.in_transaction ≡ false }
    ensures alone { conn.new.in_transaction ≡ false }
    ensures clean { HasCleanDisk (state S.Store conn.new) → HasCleanDisk (state S.Store conn.old) }
    ensures reads { HasCleanDisk (state S.Store conn.new) → (state S.Store conn.old).now.schema ≡ journal_schema
        → IfOk result (λ found. IfSome found (λ rows. AreEntries (map texts_of rows.items)
        × IsPermutation (map shown_entry ((state S.Store conn.old).now.trees 1))
        (entry_rows 1 (map texts_of rows.items)))) }
    ensures other { HasCleanDisk (state S.Store conn.new) → (state S.Store conn.old).now.schema ≡ journal_schema
        → IfOk result (λ found. IfNone found ((rows : List RowBytes) → AreEntries rows
        → ¬ IsPermutation (map shown_entry ((state S.Store conn.old).now.trees 1)) (entry_rows 1 rows))) }
    ensures same { HasCleanDisk (state S.Store conn.new) → (state S.Store conn.old).now.schema ≡ journal_schema
        → OnOk result (IsUnchanged (state S.Store conn.old) (state S.Store conn.new)) }
    ensures looks { OnlyLooks (state S.Store conn.old) (state S.Store conn.new) }
    ensures fails { HasCleanDisk (state S.Store conn.new) → MayBeAsked (state S.Store conn.old)
        → IfErr result (IsExcused (state S.Store conn.new)) }
{
    let shown = ask_entries(conn)?;
    Ok(texts_in(alloc, shown.as_slice())?)
}

/// Whether the table of the session has one row, with just these texts.
pub(crate) fn is_session<S: Alter>(
    conn: &mut Connection<S>,
    object: &str,
    boards: &[u8],
) -> Result<bool, Error>
    requires alone { conn.old.in_transaction ≡ false }
    ensures alone { conn.new.in_transaction ≡ false }
    ensures clean { HasCleanDisk (state S.Store conn.new) → HasCleanDisk (state S.Store conn.old) }
    ensures reads { HasCleanDisk (state S.Store conn.new) → (state S.Store conn.old).now.schema ≡ journal_schema
        → IfOk result (λ found. MatchBool found
        (IsPermutation (map shown_session ((state S.Store conn.old).now.trees 0))
        (session_row object.now boards.now ∷ []))
        (¬ IsPermutation (map shown_session ((state S.Store conn.old).now.trees 0))
        (session_row object.now boards.now ∷ []))) }
    ensures same { HasCleanDisk (state S.Store conn.new) → (state S.Store conn.old).now.schema ≡ journal_schema
        → OnOk result (IsUnchanged (state S.Store conn.old) (state S.Store conn.new)) }
    ensures looks { OnlyLooks (state S.Store conn.old) (state S.Store conn.new) }
    ensures fails { HasCleanDisk (state S.Store conn.new) → MayBeAsked (state S.Store conn.old)
        → IfErr result (IsExcused (state S.Store conn.new)) }
{
    let shown = ask_session(conn)?;
    Ok(is_only_row(shown.as_slice(), object, boards))
}

/// The texts of the session, where its table has one row, with the number 1.
pub(crate) fn read_session<S: Alter>(
    alloc: Global,
    conn: &mut Connection<S>,
) -> Result<Option<SessionText>, Error>
    requires alone { conn.old.in_transaction ≡ false }
    ensures alone { conn.new.in_transaction ≡ false }
    ensures clean { HasCleanDisk (state S.Store conn.new) → HasCleanDisk (state S.Store conn.old) }
    ensures reads { HasCleanDisk (state S.Store conn.new) → (state S.Store conn.old).now.schema ≡ journal_schema
        → IfOk result (λ found. IfSome found (λ it.
        IsPermutation (map shown_session ((state S.Store conn.old).now.trees 0)) (row_of_session it ∷ []))) }
    ensures other { HasCleanDisk (state S.Store conn.new) → (state S.Store conn.old).now.schema ≡ journal_schema
        → IfOk result (λ found. IfNone found ((object boards : List ℕ) → IsUtf8 object
        → ¬ IsPermutation (map shown_session ((state S.Store conn.old).now.trees 0))
        (session_row object boards ∷ []))) }
    ensures same { HasCleanDisk (state S.Store conn.new) → (state S.Store conn.old).now.schema ≡ journal_schema
        → OnOk result (IsUnchanged (state S.Store conn.old) (state S.Store conn.new)) }
    ensures looks { OnlyLooks (state S.Store conn.old) (state S.Store conn.new) }
    ensures fails { HasCleanDisk (state S.Store conn.new) → MayBeAsked (state S.Store conn.old)
        → IfErr result (IsExcused (state S.Store conn.new)) }
{
    let shown = ask_session(conn)?;
    Ok(session_in(alloc, shown.as_slice())?)
}

// The rows as the query shows them: up to their order those of the table, and where these are numbered from 1, in that
// order.
fn ask_entries<S: Alter>(conn: &mut Connection<S>) -> Result<Vec<Row>, Error>
    requires alone { conn.old.in_transaction ≡ false }
    ensures alone { conn.new.in_transaction ≡ false }
    ensures clean { HasCleanDisk (state S.Store conn.new) → HasCleanDisk (state S.Store conn.old) }
    ensures reads { HasCleanDisk (state S.Store conn.new) → (state S.Store conn.old).now.schema ≡ journal_schema
        → IfOk result (λ rows. IsPermutation (map shown_entry ((state S.Store conn.old).now.trees 1)) rows.items) }
    ensures ordered { HasCleanDisk (state S.Store conn.new) → (state S.Store conn.old).now.schema ≡ journal_schema
        → IfOk result (λ rows. (texts : List RowBytes)
        → IsPermutation (map shown_entry ((state S.Store conn.old).now.trees 1)) (entry_rows 1 texts)
        → rows.items ≡ entry_rows 1 texts) }
    ensures same { HasCleanDisk (state S.Store conn.new) → (state S.Store conn.old).now.schema ≡ journal_schema
        → OnOk result (IsUnchanged (state S.Store conn.old) (state S.Store conn.new)) }
    ensures looks { OnlyLooks (state S.Store conn.old) (state S.Store conn.new) }
    ensures fails { HasCleanDisk (state S.Store conn.new) → MayBeAsked (state S.Store conn.old)
        → IfErr result (IsExcused (state S.Store conn.new)) }
{
    conn.query_all(
        "SELECT number, publication, actor, command FROM entry ORDER BY number",
        &[],
    )
}

fn ask_session<S: Alter>(conn: &mut Connection<S>) -> Result<Vec<Row>, Error>
    requires alone { conn.old.in_transaction ≡ false }
    ensures alone { conn.new.in_transaction ≡ false }
    ensures clean { HasCleanDisk (state S.Store conn.new) → HasCleanDisk (state S.Store conn.old) }
    ensures reads { HasCleanDisk (state S.Store conn.new) → (state S.Store conn.old).now.schema ≡ journal_schema
        → IfOk result (λ rows. IsPermutation (map shown_session ((state S.Store conn.old).now.trees 0)) rows.items) }
    ensures same { HasCleanDisk (state S.Store conn.new) → (state S.Store conn.old).now.schema ≡ journal_schema
        → OnOk result (IsUnchanged (state S.Store conn.old) (state S.Store conn.new)) }
    ensures looks { OnlyLooks (state S.Store conn.old) (state S.Store conn.new) }
    ensures fails { HasCleanDisk (state S.Store conn.new) → MayBeAsked (state S.Store conn.old)
        → IfErr result (IsExcused (state S.Store conn.new)) }
{
    conn.query_all(
        "SELECT number, object, boards FROM session ORDER BY number",
        &[],
    )
}

// The texts of rows that were shown, where they are a journal's.
fn texts_in(alloc: Global, shown: &[Row]) -> Result<Option<Vec<RowText>>, AllocError>
    ensures reads { IfOk result (λ found. IfSome found (λ rows. AreEntries (map texts_of rows.items)
        × (shown.now ≡ entry_rows 1 (map texts_of rows.items)))) }
    ensures other { IfOk result (λ found. IfNone found ((rows : List RowBytes) → AreEntries rows
        → ¬ (shown.now ≡ entry_rows 1 rows))) }
{
    if shown.len() > MOST_ROWS {
        return Ok(None);
    }
    let mut rows = Vec::new(alloc);
    let mut last = 0u32;
    'rows: for place in 0..shown.len() {
        let Some(text) = text_of(alloc, &shown[place], place as u32 + 1, last)? else {
            return Ok(None);
        };
        last = text.publication;
        rows.push(text)?;
    }
    Ok(Some(rows))
}

// The texts of a row, where it has the number and may stand behind one of that publication.
fn text_of(alloc: Global, row: &Row, number: u32, last: u32) -> Result<Option<RowText>, AllocError>
    requires { last < 2 ^ 16 }
    ensures reads { IfOk result (λ found. IfSome found (λ text. IsRowOf number last (texts_of text) row.now)) }
    ensures other { IfOk result (λ found. IfNone found ((it : RowBytes) → ¬ IsRowOf number last it row.now)) }
{
    if row.column_count() != 4 || integer(row, 0) != Some(number) {
        return Ok(None);
    }
    let Some(publication) = integer(row, 1) else {
        return Ok(None);
    };
    if publication == 0 || publication < last || publication > last + 1 {
        return Ok(None);
    }
    let Some(actor) = text(alloc, row, 2)? else {
        return Ok(None);
    };
    let Some(command) = text(alloc, row, 3)? else {
        return Ok(None);
    };
    Ok(Some(RowText {
        publication,
        actor,
        command,
    }))
}

// A column's number, where it is one of those that are written.
fn integer(row: &Row, at: usize) -> Option<u32>
    requires { at < length row.now }
    ensures reads { IfSome result (λ n. column row.now at ≡ Int (pos n)) }
    ensures other { IfNone result ((n : _) → n < 2 ^ 32 → ¬ (column row.now at ≡ Int (pos n))) }
{
    match row.get_ref(at) {
        Ok(ValueRef::Int(n)) => u32::try_from(n).ok(),
        _ => None,
    }
}

// A column's text, where it is UTF-8.
fn text(alloc: Global, row: &Row, at: usize) -> Result<Option<String>, AllocError>
    requires { at < length row.now }
    ensures reads { IfOk result (λ found. IfSome found (λ s. (column row.now at ≡ Words (string_bytes s))
        × IsUtf8 (string_bytes s))) }
    ensures other { IfOk result (λ found. IfNone found ((t : _) → IsUtf8 t → ¬ (column row.now at ≡ Words t))) }
{
    let Ok(ValueRef::Text(bytes)) = row.get_ref(at) else {
        return Ok(None);
    };
    match std::str::from_utf8(bytes) {
        Ok(words) => Ok(Some(String::from_str(alloc, words)?)),
        Err(_) => Ok(None),
    }
}

// Whether there is one row, with the number 1 and just these texts.
fn is_only_row(shown: &[Row], object: &str, boards: &[u8]) -> bool
    ensures { MatchBool result (shown.now ≡ session_row object.now boards.now ∷ [])
        (¬ (shown.now ≡ session_row object.now boards.now ∷ [])) }
{
    shown.len() == 1 && is_session_row(&shown[0], object, boards)
}

fn is_session_row(row: &Row, object: &str, boards: &[u8]) -> bool
    ensures { MatchBool result (row.now ≡ session_row object.now boards.now)
        (¬ (row.now ≡ session_row object.now boards.now)) }
{
    row.column_count() == 3
        && integer(row, 0) == Some(1)
        && is_text(row, 1, object)
        && is_blob(row, 2, boards)
}

fn session_in(alloc: Global, shown: &[Row]) -> Result<Option<SessionText>, AllocError>
    ensures reads { IfOk result (λ found. IfSome found (λ it. shown.now ≡ row_of_session it ∷ [])) }
    ensures other { IfOk result (λ found. IfNone found ((object boards : List ℕ) → IsUtf8 object
        → ¬ (shown.now ≡ session_row object boards ∷ []))) }
{
    if shown.len() != 1 {
        return Ok(None);
    }
    session_of(alloc, &shown[0])
}

// The texts of a session's row, where it has the number 1.
fn session_of(alloc: Global, row: &Row) -> Result<Option<SessionText>, AllocError>
    ensures reads { IfOk result (λ found. IfSome found (λ it. row.now ≡ row_of_session it)) }
    ensures other { IfOk result (λ found. IfNone found ((object boards : List ℕ) → IsUtf8 object
        → ¬ (row.now ≡ session_row object boards))) }
{
    if row.column_count() != 3 || integer(row, 0) != Some(1) {
        return Ok(None);
    }
    let Some(object) = text(alloc, row, 1)? else {
        return Ok(None);
    };
    let Some(boards) = blob(alloc, row, 2)? else {
        return Ok(None);
    };
    Ok(Some(SessionText { object, boards }))
}

// A column's bytes.
fn blob(alloc: Global, row: &Row, at: usize) -> Result<Option<Vec<u8>>, AllocError>
    requires { at < length row.now }
    ensures reads { IfOk result (λ found. IfSome found (λ b. column row.now at ≡ Bytes b.items)) }
    ensures other { IfOk result (λ found. IfNone found ((b : List ℕ) → ¬ (column row.now at ≡ Bytes b))) }
{
    let Ok(ValueRef::Blob(bytes)) = row.get_ref(at) else {
        return Ok(None);
    };
    Ok(Some(Vec::from_slice(alloc, bytes)?))
}

fn is_text(row: &Row, at: usize, words: &str) -> bool
    requires { at < length row.now }
    ensures { MatchBool result (column row.now at ≡ Words words.now) (¬ (column row.now at ≡ Words words.now)) }
{
    match row.get_ref(at) {
        Ok(ValueRef::Text(found)) => found == words.as_bytes(),
        _ => false,
    }
}

fn is_blob(row: &Row, at: usize, bytes: &[u8]) -> bool
    requires { at < length row.now }
    ensures { MatchBool result (column row.now at ≡ Bytes bytes.now) (¬ (column row.now at ≡ Bytes bytes.now)) }
{
    match row.get_ref(at) {
        Ok(ValueRef::Blob(found)) => found == bytes,
        _ => false,
    }
}
