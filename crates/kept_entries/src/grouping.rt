//! Entries are put together again as they were published.

ghost use Rattle.std.specs.Prelude.{◌≡◌, ◌⊎◌, map, IfOk, IfErr, OnOk};
ghost use Rattle.journal_store.specs.Kept.{texts_of};
ghost use Rattle.kept_entries.specs.declared.read_fault.RowFault.TheVariants.{OutOfMemory, Misnumbered};
ghost use Rattle.kept_entries.specs.Grouping.{BeginsNext};
ghost use Rattle.kept_entries.specs.KeptRows.{AreCounted, AreKeepable, lists_in, rows_of};
ghost use Rattle.kept_entries.specs.RowTexts.{AreOf};

use crate::read_fault::RowFault;
use journal_store::RowText;
use session_commands::Entry;
use std::alloc::{AllocError, Global};
use std::mem;

/// The publications of entries, by the numbers of their rows.
pub(crate) fn group_entries(
    alloc: Global,
    rows: &[RowText],
    entries: &[Entry],
) -> Result<Vec<Vec<Entry>>, RowFault>
    requires { AreOf rows.now entries.now }
    ensures rows { IfOk result (λ published. map texts_of rows.now ≡ rows_of (lists_in published.items)) }
    ensures keepable { IfOk result (λ published. AreKeepable (lists_in published.items)) }
    ensures fault { IfErr result (λ fault. (fault ≡ OutOfMemory)
        ⊎ ((fault ≡ Misnumbered) × ¬ AreCounted 0 (map texts_of rows.now))) }
{
    let mut published = Vec::new(alloc);
    let mut last = Vec::new(alloc);
    'rows: for place in 0..rows.len() {
        let number = rows[place].publication;
        let Ok(()) = begin_publication(alloc, &mut published, &mut last, number) else {
            return Err(RowFault::OutOfMemory);
        };
        if number as usize != published.len() + 1 {
            return Err(RowFault::Misnumbered);
        }
        let Ok(()) = last.push(entries[place]) else {
            return Err(RowFault::OutOfMemory);
        };
    }
    if last.is_empty() {
        return Ok(published);
    }
    let Ok(()) = published.push(last) else {
        return Err(RowFault::OutOfMemory);
    };
    Ok(published)
}

// Before a row of the next publication, the last one has all its entries.
fn begin_publication(
    alloc: Global,
    published: &mut Vec<Vec<Entry>>,
    last: &mut Vec<Entry>,
    number: u32,
) -> Result<(), AllocError>
    ensures { OnOk result (BeginsNext number (lists_in published.old.items) last.old.items
        (lists_in published.new.items) last.new.items) }
{
    if number as usize <= published.len() + 1 || last.is_empty() {
        return Ok(());
    }
    let whole = mem::replace(last, Vec::new(alloc));
    published.push(whole)?;
    Ok(())
}
