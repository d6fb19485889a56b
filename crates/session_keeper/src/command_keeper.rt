//! Who keeps a session, as commands see it.

ghost use Rattle.std.specs.Prelude.{◌≡◌, ◌≢◌, ◌≤◌, length, IfOk, IfErr, OnErr};
ghost use Rattle.session_book.specs.Journal.{IsAccepted};
ghost use Rattle.session_book.specs.Run.{most_commands};
ghost use Rattle.session_keeper.specs.Keeping.{GoesOn, RanOnce, TriedOnce, IsAuditOf};
ghost use Rattle.session_keeper.specs.declared.submit_fault.SubmitFault.TheVariants.{OutOfMemory};

use crate::keeper::Keeper;
use crate::receipt::{AuditReceipt, BatchReceipt};
use crate::submit_fault::SubmitFault;
use session_book::Answer;
use session_commands::Command;
use user_names::Name;

/// A keeper that takes commands. `H` is what it waits by: a handle of the runtime, where it may wait for others who
/// submit, and anything, where it waits for nobody. It enters what it is given, once, and nothing else.
pub trait CommandKeeper<H>: Keeper {
    /// Tries the commands of a user, one after another. Where memory is refused for the answers, or the batch isn't kept,
    /// nothing of it joins the journal.
    fn submit(
        &mut self,
        rt: &H,
        actor: Name,
        batch: &[Command],
    ) -> Result<BatchReceipt, SubmitFault>
        requires { length batch.now ≤ most_commands }
        ensures later { GoesOn (Self.opening self.old) (Self.journal self.old)
            (Self.opening self.new) (Self.journal self.new) }
        ensures accepted { IsAccepted (Self.opening self.new) (Self.journal self.new) }
        ensures receipt { IfOk result (λ receipt. RanOnce Self.others (Self.opening self.new)
            (Self.own_entries self.old) (Self.journal self.old) actor batch.now receipt
            (Self.own_entries self.new) (Self.journal self.new)) }
        ensures untried { OnErr result (Self.others (Self.journal self.old) (Self.journal self.new)) }
        ensures none { OnErr result (Self.own_entries self.new ≡ Self.own_entries self.old) }
        ensures not_kept { IfErr result (λ why. why ≢ OutOfMemory → Self.not_kept) };

    /// Tries a command of the solver's: one of users is refused.
    fn submit_found(&mut self, rt: &H, command: &Command) -> Answer
        ensures later { GoesOn (Self.opening self.old) (Self.journal self.old)
            (Self.opening self.new) (Self.journal self.new) }
        ensures accepted { IsAccepted (Self.opening self.new) (Self.journal self.new) }
        ensures tried { TriedOnce Self.others (Self.opening self.new) (Self.own_entries self.old)
            (Self.journal self.old) command.now result (Self.own_entries self.new) (Self.journal self.new) };

    /// The entries from a number on, at most so many, for a user who has the permission for the audit.
    fn audit(&mut self, rt: &H, actor: Name, from: usize, limit: usize) -> AuditReceipt
        ensures later { GoesOn (Self.opening self.old) (Self.journal self.old)
            (Self.opening self.new) (Self.journal self.new) }
        ensures accepted { IsAccepted (Self.opening self.new) (Self.journal self.new) }
        ensures receipt { IsAuditOf Self.others (Self.opening self.new) (Self.journal self.old)
            actor from limit result (Self.journal self.new) }
        ensures own { Self.own_entries self.new ≡ Self.own_entries self.old };
}
