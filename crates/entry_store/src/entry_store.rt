//! Who keeps entries over a crash.

ghost use Rattle.std.specs.Prelude.{◌≡◌, ◌<◌, length, true, false, OnOk, IfErr};
ghost use Rattle.entry_store.specs.Keeping.{LeavesOneMore, LeavesAsBefore, LeavesNoneOrOne};
ghost use Rattle.entry_store.specs.declared.keep_fault.KeepFault.TheVariants.{NotKept};

use crate::keep_fault::KeepFault;
use session_commands::Entry;

/// One who keeps publications, each a list of entries, where they outlast the program. What it promises is promised as far
/// as the disk gives no wrong answer.
pub trait EntryStore: Drop {
    ghost use Rattle.std.specs.Prelude.{ℕ, Bool, List};
    ghost use Rattle.session_commands.specs.declared.entry.Entry.{Entry};

    // 0 while no wrong answer of the disk was taken as true.
    ghost doubt: { Self → ℕ };

    // What the next start may find after a crash at this moment: these publications, each whole.
    ghost leaves: { Self → List (List Entry) → Type 0 };

    // Whether it takes one more. Once it is shut, another start alone tells what is kept.
    ghost is_open: { Self → Bool };

    // What it takes for entries not to be kept; where that never happens nothing does.
    ghost fails: { Type 0 };

    /// Whether it takes one more.
    fn is_open(&self) -> bool
        ensures open { result ≡ is_open self.now }
        ensures shut { result ≡ false → fails };

    /// Keeps a publication behind the others, the whole of it or nothing. Once it returns with `Ok`, every crash leaves it.
    /// A store that has refused one as `NotKept` goes on: it takes the next.
    fn keep(&mut self, entries: &[Entry]) -> Result<(), KeepFault>
        requires open { is_open self.old ≡ true }
        requires some { 0 < length entries.now }
        ensures clean { doubt self.new ≡ 0 → doubt self.old ≡ 0 }
        ensures open { OnOk result (is_open self.new ≡ true) }
        ensures goes_on { IfErr result (λ fault. fault ≡ NotKept → is_open self.new ≡ true) }
        ensures kept { OnOk result (doubt self.new ≡ 0 → LeavesOneMore (leaves self.old) entries.now (leaves self.new)) }
        ensures fault { IfErr result (λ fault. fails × (doubt self.new ≡ 0 →
            LeavesNoneOrOne fault (is_open self.new) (leaves self.old) entries.now (leaves self.new))) };
}
