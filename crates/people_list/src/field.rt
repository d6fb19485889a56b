//! The field of a row under a column's name.

ghost use Rattle.std.specs.Prelude.{◌≡◌, IfOk, Some, option_map};
ghost use Rattle.csv.specs.Records.{fields_of};
ghost use Rattle.people_list.specs.Fields.{named_at, under_column, where_named};

use crate::people_fault::LineFault;
use csv::ByteRecord;
use std::str;

/// The text of a row under a column's name, which is empty where there is no such column.
pub(crate) fn text_under<'r>(
    columns: &ByteRecord,
    row: &'r ByteRecord,
    name: &str,
) -> Result<&'r str, LineFault>
    ensures { IfOk result (λ text. text.now ≡ under_column (fields_of columns.now) (fields_of row.now) name.now) }
{
    match str::from_utf8(field_under(columns, row, name)) {
        Ok(text) => Ok(text),
        Err(_) => Err(LineFault::NotText),
    }
}

fn field_under<'r>(columns: &ByteRecord, row: &'r ByteRecord, name: &str) -> &'r [u8]
    ensures { result.now ≡ under_column (fields_of columns.now) (fields_of row.now) name.now }
{
    for place in 0..columns.len() {
        match named_field(columns, row, place, name) {
            Some(field) => return field,
            None => {}
        }
    }
    &[]
}

// The field at a place, where its column has this name.
fn named_field<'r>(
    columns: &ByteRecord,
    row: &'r ByteRecord,
    place: usize,
    name: &str,
) -> Option<&'r [u8]>
    ensures { option_map (λ field. field.now) result ≡ named_at (fields_of columns.now) (fields_of row.now) name.now place }
{
    match (columns.get(place), row.get(place)) {
        (Some(column), Some(field)) => where_equal(column, field, name),
        _ => None,
    }
}

fn where_equal<'r>(column: &[u8], field: &'r [u8], name: &str) -> Option<&'r [u8]>
    ensures { option_map (λ field. field.now) result ≡ where_named (Some column.now) (Some field.now) name.now }
{
    if column == name.as_bytes() {
        Some(field)
    } else {
        None
    }
}
