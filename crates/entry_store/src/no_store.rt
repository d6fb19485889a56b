//! The store of a session that is kept nowhere.

ghost use Rattle.std.specs.Prelude.{true};

use crate::entry_store::EntryStore;
use crate::keep_fault::KeepFault;
use session_commands::Entry;

/// Keeps nothing, and never refuses. No start finds anything of it, so nothing is promised of what one finds.
#[derive(Clone, Copy)]
pub struct NoStore;

impl EntryStore for NoStore {
    ghost use Rattle.std.specs.Prelude.{true, suc, zero};

    ghost doubt = { λ _. 0 };

    ghost leaves = { λ _ _. ⊥ };

    ghost is_open = { λ _. true };

    ghost fails = { ⊥ };

    fn is_open(&self) -> bool {
        true
    }

    fn keep(&mut self, _entries: &[Entry]) -> Result<(), KeepFault> {
        Ok(())
    }
}
