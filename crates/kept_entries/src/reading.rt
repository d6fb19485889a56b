//! What the texts of rows tell.

ghost use Rattle.std.specs.Prelude.{◌≡◌, ◌≤◌, ◌∷◌, ◌++◌, [], length, IfOk, IfErr, OnOk};
ghost use Rattle.journal_store.specs.Kept.{most_entry_rows};
ghost use Rattle.kept_entries.specs.RowTexts.{AreTold, IsTold, WhyNotRead, WhyRowNotRead};

use crate::read_fault::RowFault;
use entry_texts::{KeptEntry, TextFault, read_entry};
use journal_store::RowText;
use std::alloc::{AllocError, Global};

/// What the texts of each row tell.
pub(crate) fn read_rows(alloc: Global, rows: &[RowText]) -> Result<Vec<KeptEntry>, RowFault>
    requires { length rows.now ≤ most_entry_rows }
    ensures each { IfOk result (λ read. length read.items ≡ length rows.now) }
    ensures told { IfOk result (λ read. AreTold rows.now read.items) }
    ensures fault { IfErr result (WhyNotRead rows.now) }
{
    let mut read = Vec::new(alloc);
    'rows: for place in 0..rows.len() {
        let told = match read_row(alloc, &rows[place], place as u32 + 1) {
            Ok(told) => told,
            Err(fault) => return Err(fault),
        };
        let Ok(()) = push_copy(&mut read, &told) else {
            return Err(RowFault::OutOfMemory);
        };
    }
    Ok(read)
}

// What the texts of the row of a number tell.
fn read_row(alloc: Global, row: &RowText, number: u32) -> Result<KeptEntry, RowFault>
    ensures told { IfOk result (IsTold row.now) }
    ensures fault { IfErr result (WhyRowNotRead row.now number) }
{
    match read_entry(alloc, row.actor.as_str(), row.command.as_str()) {
        Ok(read) => Ok(read),
        Err(TextFault::OutOfMemory) => Err(RowFault::OutOfMemory),
        Err(_) => Err(RowFault::Unreadable(number)),
    }
}

fn push_copy<T: Copy + Drop>(items: &mut Vec<T>, item: &T) -> Result<(), AllocError>
    ensures { OnOk result (items.new.items ≡ items.old.items ++ item.now ∷ []) }
{
    items.push(*item)?;
    Ok(())
}
