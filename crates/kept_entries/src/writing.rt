ghost use Rattle.std.specs.Prelude.{◌≡◌, map, All, IfOk};
ghost use Rattle.entry_texts.specs.EntryTexts.{IsKeepable};
ghost use Rattle.journal_store.specs.Kept.{texts_of};
ghost use Rattle.kept_entries.specs.KeptRows.{row_in};

use entry_texts::entry_text;
use journal_store::RowText;
use session_commands::Entry;
use std::alloc::{AllocError, Global};

/// The rows of the entries of a publication, with its number.
pub fn row_texts(
    alloc: Global,
    publication: u32,
    entries: &[Entry],
) -> Result<Vec<RowText>, AllocError>
    ensures rows { IfOk result (λ rows. map texts_of rows.items ≡ map (row_in publication) entries.now) }
    ensures keepable { IfOk result (λ rows. All IsKeepable entries.now) }
{
    let mut rows = Vec::new(alloc);
    'entries: for place in 0..entries.len() {
        let row = row_text(alloc, publication, &entries[place])?;
        rows.push(row)?;
    }
    Ok(rows)
}

// The row of an entry.
fn row_text(alloc: Global, publication: u32, entry: &Entry) -> Result<RowText, AllocError>
    ensures row { IfOk result (λ row. texts_of row ≡ row_in publication entry.now) }
    ensures keepable { IfOk result (λ row. IsKeepable entry.now) }
{
    let text = entry_text(alloc, entry)?;
    Ok(RowText {
        publication,
        actor: text.actor,
        command: text.command,
    })
}
