//! What was read is written again, and compared with the rows.

ghost use Rattle.std.specs.Prelude.{◌≡◌, ◌≤◌, true, length, IfOk, IfErr, IfSome, IfNone};
ghost use Rattle.session_commands.specs.Command.{is_solvers};
ghost use Rattle.entry_texts.specs.EntryTexts.{IsKeepable, texts_of_entry};
ghost use Rattle.journal_store.specs.Kept.{most_entry_rows};
ghost use Rattle.kept_entries.specs.RowTexts.{AreOf, AreTold, IsTold, WhyNotRead, WhyRowNotRead, entry_told, told_by};

use crate::read_fault::RowFault;
use entry_texts::{KeptEntry, entry_text};
use journal_store::RowText;
use session_commands::Entry;
use std::alloc::Global;

/// The entries whose texts are the rows', if each is there.
pub(crate) fn compare_rows(
    alloc: Global,
    rows: &[RowText],
    read: &[KeptEntry],
) -> Result<Vec<Entry>, RowFault>
    requires few { length rows.now ≤ most_entry_rows }
    requires each { length read.now ≡ length rows.now }
    ensures same { IfOk result (λ entries. AreOf rows.now entries.items) }
    ensures fault { AreTold rows.now read.now → IfErr result (WhyNotRead rows.now) }
{
    let mut entries = Vec::new(alloc);
    'rows: for place in 0..rows.len() {
        let entry = match compare_row(alloc, &rows[place], &read[place], place as u32 + 1) {
            Ok(entry) => entry,
            Err(fault) => return Err(fault),
        };
        let Ok(()) = entries.push(entry) else {
            return Err(RowFault::OutOfMemory);
        };
    }
    Ok(entries)
}

// The entry whose texts are the row's.
fn compare_row(
    alloc: Global,
    row: &RowText,
    read: &KeptEntry,
    number: u32,
) -> Result<Entry, RowFault>
    ensures same { IfOk result (λ entry. told_by row.now ≡ texts_of_entry entry) }
    ensures keepable { IfOk result IsKeepable }
    ensures fault { IsTold row.now read.now → IfErr result (WhyRowNotRead row.now number) }
{
    let Some(entry) = given_entry(read) else {
        return Err(RowFault::Unsolved(number));
    };
    let Ok(text) = entry_text(alloc, &entry) else {
        return Err(RowFault::OutOfMemory);
    };
    if text.actor.as_str() != row.actor.as_str() || text.command.as_str() != row.command.as_str() {
        return Err(RowFault::Unreadable(number));
    }
    Ok(entry)
}

// The entry that was read as a whole, or whose numbers were found.
fn given_entry(read: &KeptEntry) -> Option<Entry>
    ensures some { IfSome result (λ entry. entry_told read.now ≡ entry) }
    ensures none { IfNone result (is_solvers (entry_told read.now).command ≡ true) }
{
    match *read {
        KeptEntry::Given(entry) => Some(entry),
        KeptEntry::Solved { .. } => None,
        KeptEntry::Analysed { .. } => None,
    }
}
