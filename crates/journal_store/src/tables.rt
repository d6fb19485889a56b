//! Whether a schema is the journal's.

ghost use Rattle.std.specs.Prelude.{◌≡◌, ◌∷◌, [], true, false, Some, codes};
ghost use Rattle.sqlite.specs.declared.types.Value.TheVariants.{Null};
ghost use Rattle.journal_store.specs.Tables.{strict_column, session_columns, entry_columns, numbered_table, session_table, entry_table, journal_schema, no_schema};

use sqlite_schema::code::Terms;
use sqlite_schema::schema::{Column, Kind, Schema, Stamps, Table};
use sqlite_value::keys::Collation;
use sqlite_value::value::Value;

/// Whether it has no table, no index and no view.
pub fn is_blank_schema(schema: &Schema) -> bool
    ensures is { result ≡ true → schema.now ≡ no_schema }
    ensures only { schema.now ≡ no_schema → result ≡ true }
{
    schema.tables.is_empty() && schema.indexes.is_empty() && schema.views.is_empty()
}

/// Whether it is just the journal's.
pub fn is_journal(schema: &Schema) -> bool
    ensures is { result ≡ true → schema.now ≡ journal_schema }
    ensures only { schema.now ≡ journal_schema → result ≡ true }
{
    schema.indexes.is_empty() && schema.views.is_empty() && are_tables(schema.tables.as_slice())
}

// Whether they are the journal's two.
fn are_tables(tables: &[Table]) -> bool
    ensures is { result ≡ true → tables.now ≡ session_table ∷ entry_table ∷ [] }
    ensures only { tables.now ≡ session_table ∷ entry_table ∷ [] → result ≡ true }
{
    tables.len() == 2 && is_session_table(&tables[0]) && is_entry_table(&tables[1])
}

fn is_session_table(table: &Table) -> bool
    ensures is { result ≡ true → table.now ≡ session_table }
    ensures only { table.now ≡ session_table → result ≡ true }
{
    is_plain(table, b"session", 0) && are_session_columns(table.columns.as_slice())
}

fn is_entry_table(table: &Table) -> bool
    ensures is { result ≡ true → table.now ≡ entry_table }
    ensures only { table.now ≡ entry_table → result ≡ true }
{
    is_plain(table, b"entry", 1) && are_entry_columns(table.columns.as_slice())
}

// Whether it is a table of numbered rows with no rule beside its columns' own.
fn is_plain(table: &Table, name: &[u8], tree: u32) -> bool
    ensures is { result ≡ true → (others : _)
        → table.now.columns ≡ strict_column (codes "number") Kind.Integer false ∷ others
        → table.now ≡ numbered_table name.now tree others }
    ensures only { (others : _) → table.now ≡ numbered_table name.now tree others → result ≡ true }
{
    table.name.as_slice() == name
        && table.tree == tree
        && is_zero(table.key)
        && is_one_zero(table.primary.as_slice())
        && table.uniques.is_empty()
        && table.orders.is_empty()
        && is_no_term(&table.checks)
        && table.references.is_empty()
        && table.computed.is_empty()
        && is_no_stamp(&table.stamps)
        && !table.is_counted
}

fn is_zero(place: Option<usize>) -> bool
    ensures is { result ≡ true → place ≡ Some 0 }
    ensures only { place ≡ Some 0 → result ≡ true }
{
    match place {
        Some(place) => place == 0,
        None => false,
    }
}

fn is_one_zero(places: &[usize]) -> bool
    ensures is { result ≡ true → places.now ≡ 0 ∷ [] }
    ensures only { places.now ≡ 0 ∷ [] → result ≡ true }
{
    places.len() == 1 && places[0] == 0
}

fn is_no_term(terms: &Terms) -> bool
    ensures is { result ≡ true → terms.now ≡ [] }
    ensures only { terms.now ≡ [] → result ≡ true }
{
    terms.roots.is_empty()
}

fn is_no_stamp(stamps: &Stamps) -> bool
    ensures is { result ≡ true → stamps.now ≡ record { places = []; terms = []; formats = [] } }
    ensures only { stamps.now ≡ record { places = []; terms = []; formats = [] } → result ≡ true }
{
    stamps.places.is_empty() && is_no_term(&stamps.terms) && stamps.formats.is_empty()
}

// Whether they are a number, a text and bytes.
fn are_session_columns(columns: &[Column]) -> bool
    ensures is { result ≡ true → columns.now ≡ strict_column (codes "number") Kind.Integer false ∷ session_columns }
    ensures only { columns.now ≡ strict_column (codes "number") Kind.Integer false ∷ session_columns → result ≡ true }
{
    columns.len() == 3
        && is_column(&columns[0], b"number", Kind::Integer, false)
        && is_column(&columns[1], b"object", Kind::Text, true)
        && is_column(&columns[2], b"boards", Kind::Blob, true)
}

// Whether they are two numbers and two texts.
fn are_entry_columns(columns: &[Column]) -> bool
    ensures is { result ≡ true → columns.now ≡ strict_column (codes "number") Kind.Integer false ∷ entry_columns }
    ensures only { columns.now ≡ strict_column (codes "number") Kind.Integer false ∷ entry_columns → result ≡ true }
{
    columns.len() == 4
        && is_column(&columns[0], b"number", Kind::Integer, false)
        && is_column(&columns[1], b"publication", Kind::Integer, true)
        && is_column(&columns[2], b"actor", Kind::Text, true)
        && is_column(&columns[3], b"command", Kind::Text, true)
}

// Whether it is a strict column of this name and kind, with no default.
fn is_column(column: &Column, name: &[u8], kind: Kind, is_filled: bool) -> bool
    ensures is { result ≡ true → column.now ≡ strict_column name.now kind is_filled }
    ensures only { column.now ≡ strict_column name.now kind is_filled → result ≡ true }
{
    column.name.as_slice() == name
        && column.kind == kind
        && column.is_strict
        && column.not_null == is_filled
        && is_null(&column.default)
        && column.collation == Collation::Binary
}

fn is_null(value: &Value) -> bool
    ensures is { result ≡ true → value.now ≡ Null }
    ensures only { value.now ≡ Null → result ≡ true }
{
    matches!(value, Value::Null)
}
