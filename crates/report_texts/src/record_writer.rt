//! Records of comma-separated fields, by the kit's `csv`.
ghost use Rattle.std.specs.Prelude.{◌≡◌, ◌∷◌, ◌++◌, [], List, ℕ, IfOk};
ghost use Rattle.csv.specs.Records.{fields_of, partial_of};
ghost use Rattle.csv.specs.Writing.{default_writer, row_text};
ghost use Rattle.report_texts.specs.CsvText.{HasFields};

use csv::{ByteRecord, Writer};
use std::alloc::{AllocError, Global};

/// The fields of a record so far, unless memory for one of them was refused.
#[derive(Drop)]
pub(crate) struct RecordWriter {
    alloc: Global,
    record: Result<ByteRecord, AllocError>,
}

impl RecordWriter {
    pub(crate) fn new(alloc: Global) -> RecordWriter
        ensures { HasFields result [] }
    {
        RecordWriter {
            alloc,
            record: Ok(ByteRecord::new(alloc)),
        }
    }

    /// Adds a field of these bytes.
    pub(crate) fn bytes(self, bytes: &[u8]) -> RecordWriter
        ensures { (fields : List (List ℕ)) → HasFields self fields → HasFields result (fields ++ bytes.now ∷ []) }
    {
        RecordWriter {
            alloc: self.alloc,
            record: with_field(self.record, bytes),
        }
    }

    /// Adds a text as a field.
    pub(crate) fn text(self, text: &str) -> RecordWriter
        ensures { (fields : List (List ℕ)) → HasFields self fields → HasFields result (fields ++ text.now ∷ []) }
    {
        self.bytes(text.as_bytes())
    }

    /// Adds what was written elsewhere as a field.
    pub(crate) fn part(self, part: Result<Vec<u8>, AllocError>) -> RecordWriter
        ensures { (fields : List (List ℕ)) (written : List ℕ) → HasFields self fields →
            IfOk part (λ bytes. bytes.items ≡ written) → HasFields result (fields ++ written ∷ []) }
    {
        match part {
            Ok(bytes) => self.bytes(&bytes),
            Err(refused) => RecordWriter {
                alloc: self.alloc,
                record: Err(refused),
            },
        }
    }

    /// The record's text, with the end of its line.
    pub(crate) fn record(self) -> Result<Vec<u8>, AllocError>
        ensures { (fields : List (List ℕ)) → HasFields self fields →
            IfOk result (λ text. text.items ≡ row_text default_writer fields) }
    {
        let alloc = self.alloc;
        match self.record {
            Ok(record) => record_text(alloc, &record),
            Err(refused) => Err(refused),
        }
    }
}

fn with_field(
    before: Result<ByteRecord, AllocError>,
    field: &[u8],
) -> Result<ByteRecord, AllocError>
    ensures { (fields : List (List ℕ)) →
        IfOk before (λ row. (fields_of row ≡ fields) × (partial_of row ≡ [])) →
        IfOk result (λ row. (fields_of row ≡ fields ++ field.now ∷ []) × (partial_of row ≡ [])) }
{
    let mut record = before?;
    record.push_field(field)?;
    Ok(record)
}

// The text of a record: memory is all that can be wanting.
fn record_text(alloc: Global, row: &ByteRecord) -> Result<Vec<u8>, AllocError>
    ensures { IfOk result (λ text. text.items ≡ row_text default_writer (fields_of row.now)) }
{
    let written = Vec::new(alloc);
    let mut writer = Writer::from_writer(written);
    match writer.write_byte_record(row) {
        Ok(()) => match writer.into_inner() {
            Ok(text) => Ok(text),
            Err(_) => Err(AllocError),
        },
        Err(_) => Err(AllocError),
    }
}
