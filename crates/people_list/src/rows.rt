//! The records of a CSV text.

ghost use Rattle.std.specs.Prelude.{◌≡◌, IfOk, map};
ghost use Rattle.csv.specs.Reading.{AreRecords, default_config, strip_bom};
ghost use Rattle.csv.specs.Records.{fields_of};
ghost use Rattle.csv.specs.declared.parser.State.TheVariants as st;

use crate::people_fault::{LineFault, PeopleFault};
use csv::{ByteRecord, Error, ErrorKind, ReaderBuilder};
use std::alloc::Global;

/// The records of a text, the line of columns first.
pub(crate) fn rows_of(alloc: Global, text: &[u8]) -> Result<Vec<ByteRecord>, PeopleFault>
    ensures { IfOk result (λ rows. AreRecords default_config st.StartRecord (strip_bom text.now) (map fields_of rows.items)) }
{
    match all_rows(alloc, text) {
        Ok(rows) => Ok(rows),
        Err(error) => Err(fault_of(text, &error)),
    }
}

fn all_rows(alloc: Global, text: &[u8]) -> Result<Vec<ByteRecord>, Error>
    ensures { IfOk result (λ rows. AreRecords default_config st.StartRecord (strip_bom text.now) (map fields_of rows.items)) }
{
    let rdr = ReaderBuilder::new()
        .has_headers(false)
        .from_reader(alloc, text);
    let mut rows = Vec::new(alloc);
    for row in rdr.into_byte_records() {
        if rows.push(row?).is_err() {
            return Err(Error::out_of_memory());
        }
    }
    Ok(rows)
}

// Why there are no records.
fn fault_of(text: &[u8], error: &Error) -> PeopleFault {
    match error.kind() {
        ErrorKind::UnequalLengths {
            pos: Some(position),
            ..
        } => PeopleFault::Line(
            position
                .line
                .saturating_add(blank_lines(text, position.byte)),
            LineFault::WrongFields,
        ),
        ErrorKind::OutOfMemory => PeopleFault::OutOfMemory,
        _ => PeopleFault::NotCsv,
    }
}

/// The line on which a record of a text begins, counted from 1: blank lines before it are none of its own.
pub(crate) fn line_of(text: &[u8], row: &ByteRecord) -> u64 {
    match row.position() {
        Some(position) => position
            .line
            .saturating_add(blank_lines(text, position.byte)),
        None => 0,
    }
}

// How many lines end from a place on before anything else stands there.
fn blank_lines(text: &[u8], place: u64) -> u64 {
    let mut lines = 0u64;
    for byte in text.get(place as usize..).unwrap_or(&[]) {
        match *byte {
            b'\n' => lines = lines.saturating_add(1),
            b'\r' => {}
            _ => break,
        }
    }
    lines
}
