//! The line that names the columns.

use crate::people_fault::PeopleFault;
use csv::ByteRecord;

const COLUMNS: [&str; 6] = ["name", "pair", "place", "roles", "number", "sign_in"];

/// The first fault of the line of columns, if it has one.
pub(crate) fn check_columns(columns: &ByteRecord) -> Result<(), PeopleFault> {
    for place in 0..columns.len() {
        if let Some(column) = columns.get(place) {
            if !is_column(column) {
                return Err(PeopleFault::UnknownColumn(place.saturating_add(1)));
            }
            if stands_before(columns, place, column) {
                return Err(PeopleFault::ColumnTwice(place.saturating_add(1)));
            }
        }
    }
    if stands_before(columns, columns.len(), b"name") {
        Ok(())
    } else {
        Err(PeopleFault::NoNameColumn)
    }
}

fn is_column(column: &[u8]) -> bool {
    COLUMNS.iter().any(|name| name.as_bytes() == column)
}

// Whether one of the columns before this place has the name.
fn stands_before(columns: &ByteRecord, place: usize, name: &[u8]) -> bool {
    (0..place).any(|before| columns.get(before) == Some(name))
}
