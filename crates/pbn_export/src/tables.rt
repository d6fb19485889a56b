//! Tags, and the items of their tables, as they are written.
ghost use Rattle.std.specs.Prelude.{◌≡◌, ◌++◌, ℕ, List, IfOk, OnOk, map};
ghost use Rattle.std.specs.List.{concat, list_all};
ghost use Rattle.pbn_export.specs.Games.{vulnerable_word};
ghost use Rattle.pbn_export.specs.Tables.{TableRow, is_word, is_word_byte, item_text, next_item, row_text, tag as a_tag, tag_line, game_tag_text, value_byte, value_text};

use std::alloc::{AllocError, Global};
use table_terms::Vulnerability;
use text_writer::TextWriter;

/// A tag without a table.
pub fn tag(
    alloc: Global,
    name: &str,
    value: Result<Vec<u8>, AllocError>,
) -> Result<Vec<u8>, AllocError>
    ensures { (text : List ℕ) → IfOk value (λ bytes. bytes.items ≡ text) →
        IfOk result (λ written. written.items ≡ game_tag_text (a_tag name.now text)) }
{
    match value {
        Ok(text) => written_tag(alloc, name, &text),
        Err(refused) => Err(refused),
    }
}

fn written_tag(alloc: Global, name: &str, value: &[u8]) -> Result<Vec<u8>, AllocError>
    ensures { IfOk result (λ written. written.items ≡ game_tag_text (a_tag name.now value.now)) }
{
    TextWriter::new(alloc)
        .part(tag_line(alloc, name, value))
        .text("")
        .finish()
}

/// A tag with the rows of its table, which are written already.
pub fn table(
    alloc: Global,
    name: &str,
    columns: &str,
    rows: Result<Vec<u8>, AllocError>,
) -> Result<Vec<u8>, AllocError>
    ensures { (all : List TableRow) → IfOk rows (λ bytes. bytes.items ≡ concat (map row_text all)) →
        IfOk result (λ written. written.items
        ≡ game_tag_text (record { name = name.now; value = columns.now; rows = all })) }
{
    TextWriter::new(alloc)
        .part(tag_line(alloc, name, columns.as_bytes()))
        .part(rows)
        .finish()
}

fn tag_line(alloc: Global, name: &str, value: &[u8]) -> Result<Vec<u8>, AllocError>
    ensures { IfOk result (λ written. written.items ≡ tag_line name.now value.now) }
{
    TextWriter::new(alloc)
        .text("[")
        .text(name)
        .text(" \"")
        .part(value_text(alloc, value))
        .text("\"]\n")
        .finish()
}

/// The first item of a row.
pub fn first_item(alloc: Global, item: Result<Vec<u8>, AllocError>) -> Result<Vec<u8>, AllocError>
    ensures { (text : List ℕ) → IfOk item (λ bytes. bytes.items ≡ text) →
        IfOk result (λ written. written.items ≡ item_text text) }
{
    match item {
        Ok(text) => item_text(alloc, &text),
        Err(refused) => Err(refused),
    }
}

/// An item behind another.
pub fn next_item(alloc: Global, item: Result<Vec<u8>, AllocError>) -> Result<Vec<u8>, AllocError>
    ensures { (text : List ℕ) → IfOk item (λ bytes. bytes.items ≡ text) →
        IfOk result (λ written. written.items ≡ next_item text) }
{
    TextWriter::new(alloc)
        .text(" ")
        .part(first_item(alloc, item))
        .finish()
}

fn item_text(alloc: Global, item: &[u8]) -> Result<Vec<u8>, AllocError>
    ensures { IfOk result (λ written. written.items ≡ item_text item.now) }
{
    if is_word(item) {
        return copy_of(alloc, item);
    }
    TextWriter::new(alloc)
        .text("\"")
        .part(value_text(alloc, item))
        .text("\"")
        .finish()
}

fn copy_of(alloc: Global, bytes: &[u8]) -> Result<Vec<u8>, AllocError>
    ensures { IfOk result (λ copy. copy.items ≡ bytes.now) }
{
    let mut copy = Vec::new(alloc);
    copy.extend_from_slice(bytes)?;
    Ok(copy)
}

fn is_word(item: &[u8]) -> bool
    ensures { result ≡ is_word item.now }
{
    match item {
        [] => false,
        [_, ..] => are_word_bytes(item),
    }
}

fn are_word_bytes(bytes: &[u8]) -> bool
    ensures { result ≡ list_all is_word_byte bytes.now }
{
    bytes.iter().all(|byte| is_word_byte(*byte))
}

fn is_word_byte(byte: u8) -> bool
    ensures { result ≡ is_word_byte byte }
{
    byte.is_ascii_alphanumeric() || byte == b'_' || byte == b'-' || byte == b'.'
}

// A text as it stands within quotes.
#[tactic(auto, unfolding(crate::specs::Tables::value_text))]
fn value_text(alloc: Global, text: &[u8]) -> Result<Vec<u8>, AllocError>
    ensures { IfOk result (λ written. written.items ≡ value_text text.now) }
{
    let mut written = Vec::with_capacity(alloc, text.len())?;
    for byte in text {
        push_value(&mut written, *byte)?;
    }
    Ok(written)
}

fn push_value(written: &mut Vec<u8>, byte: u8) -> Result<(), AllocError>
    ensures { OnOk result (written.new.items ≡ written.old.items ++ value_byte byte) }
{
    match byte {
        b'"' => written.extend_from_slice(b"\\\""),
        b'\\' => written.extend_from_slice(b"\\\\"),
        0..=31 | 127 => written.extend_from_slice(b"?"),
        _ => written.extend_from_slice(&[byte]),
    }
}

/// The word of a marking.
pub fn vulnerable_word(vulnerability: Vulnerability) -> &'static str
    ensures { result.now ≡ vulnerable_word vulnerability }
{
    match vulnerability {
        Vulnerability::Neither => "None",
        Vulnerability::NorthSouth => "NS",
        Vulnerability::EastWest => "EW",
        Vulnerability::Both => "All",
    }
}
