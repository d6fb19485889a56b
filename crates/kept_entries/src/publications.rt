//! Rows are read as publications.

ghost use Rattle.std.specs.Prelude.{◌≡◌, ◌≤◌, List, length, map, IfOk, IfErr, OnOk};
ghost use Rattle.session_commands.specs.declared.entry.Entry.{Entry};
ghost use Rattle.session_state.specs.SessionState.{SessionState};
ghost use Rattle.session_book.specs.Journal.{IsAccepted};
ghost use Rattle.history.specs.Prefixes.{entries_of};
ghost use Rattle.journal_store.specs.Kept.{texts_of, most_entry_rows};
ghost use Rattle.kept_entries.specs.KeptRows.{AreKeepable, lists_in, rows_of};
ghost use Rattle.kept_entries.specs.RowTexts.{AreOf, IsReadingWant, WhyNotRead};

use crate::comparing::compare_rows;
use crate::grouping::group_entries;
use crate::read_fault::RowFault;
use crate::reading::read_rows;
use crate::solving::solve_all;
use journal_store::{MOST_ROWS, RowText};
use session_commands::Entry;
use std::alloc::Global;
use std::thread::Threads;

/// The publications whose rows these are. What the solver found is found again, by so many workers beside one another,
/// each time with so many visits. Rows of publications whose entries are an accepted journal are refused for want of
/// memory or visits alone.
pub fn read_publications<R: Threads + Sync>(
    rt: &R,
    alloc: Global,
    rows: &[RowText],
    budget: u64,
    workers: usize,
) -> Result<Vec<Vec<Entry>>, RowFault>
    ensures few { OnOk result (length rows.now ≤ most_entry_rows) }
    ensures rows { IfOk result (λ published. map texts_of rows.now ≡ rows_of (lists_in published.items)) }
    ensures keepable { IfOk result (λ published. AreKeepable (lists_in published.items)) }
    ensures found { (published : List (List Entry)) → AreKeepable published → map texts_of rows.now ≡ rows_of published
        → IfOk result (λ found. lists_in found.items ≡ published) }
    ensures fault { IfErr result (WhyNotRead rows.now) }
    ensures accepted { (opening : SessionState) (published : List (List Entry)) → AreKeepable published
        → IsAccepted opening (entries_of published) → map texts_of rows.now ≡ rows_of published
        → IfErr result IsReadingWant }
{
    if rows.len() > MOST_ROWS {
        return Err(RowFault::Misnumbered);
    }
    let entries = match entries_of_rows(rt, alloc, rows, budget, workers) {
        Ok(entries) => entries,
        Err(fault) => return Err(fault),
    };
    group_entries(alloc, rows, entries.as_slice())
}

// The entries whose rows these are.
fn entries_of_rows<R: Threads + Sync>(
    rt: &R,
    alloc: Global,
    rows: &[RowText],
    budget: u64,
    workers: usize,
) -> Result<Vec<Entry>, RowFault>
    requires { length rows.now ≤ most_entry_rows }
    ensures same { IfOk result (λ entries. AreOf rows.now entries.items) }
    ensures fault { IfErr result (WhyNotRead rows.now) }
{
    let mut read = match read_rows(alloc, rows) {
        Ok(read) => read,
        Err(fault) => return Err(fault),
    };
    let Ok(()) = solve_all(rt, alloc, read.as_mut_slice(), budget, workers) else {
        return Err(RowFault::OutOfMemory);
    };
    compare_rows(alloc, rows, read.as_slice())
}
