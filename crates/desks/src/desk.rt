//! A desk, from which batches come.

ghost use Rattle.std.specs.Prelude.{◌≡◌, ◌≢◌, ◌≤◌, ◌↔◌, List, length, IfOk, IfErr, OnOk, OnErr};
ghost use Rattle.std.specs.Sync.Mutex.{mutex_guard_value};
ghost use mathlib.Core.List.{IsPrefix};
ghost use Rattle.rbac.specs.Authorization.{HasPermission, IsValid};
ghost use Rattle.session_roles.specs.declared.operation.Operation.TheVariants.{Audit};
ghost use Rattle.session_commands.specs.declared.entry.Entry.{Entry};
ghost use Rattle.session_book.specs.Audit.{audit_rows};
ghost use Rattle.session_book.specs.declared.audit.AuditError.TheVariants.{NotPermitted};
ghost use Rattle.session_book.specs.Journal.{replay};
ghost use Rattle.session_book.specs.Run.{most_commands};
ghost use Rattle.history.specs.Prefixes.{entries_of};
ghost use Rattle.displays.specs.Copies.{IsPublished};
ghost use Rattle.displays.specs.Publishing.{receipted};
ghost use Rattle.session_keeper.specs.Keeping.{EntersJust};
ghost use Rattle.session_keeper.specs.declared.submit_fault.SubmitFault.TheVariants.{OutOfMemory};
ghost use Rattle.desks.specs.Batch.{IsSubmitted, IsEntered};
ghost use Rattle.desks.specs.Kept.{IsKeptBy, LeavesJust};
ghost use Rattle.session_jobs.specs.Work.{IsWorkLeft};

use crate::desk_places::DeskPlace;
use crate::locked_book::LockedBook;
use displays::{Display, Receipt, Server};
use entry_store::EntryStore;
use movement::Cell;
use session_book::{Answer, AuditError, AuditRows};
use session_commands::Command;
use session_jobs::work_of;
use session_keeper::SubmitFault;
use solver_pool::Work;
use std::marker::Model;
use std::sync::ledger::Share;
use std::sync::{Mutex, MutexGuard, Wait};
use user_names::Name;

/// Puts commands into the book that it shares with other desks. Each call waits for the lock; one that publishes waits
/// for displays that still read the older copy, and one that is to be kept for its store. What is told is kept: there is a
/// store of which whatever a crash leaves then is what the receipt tells. That it is the one under the lock, the lock's
/// own book says. Contracts see how many entries this desk has entered in all: each call enters what it is given, once,
/// and nothing else.
pub struct Desk<'a, N: Server, K: EntryStore> {
    lock: &'a Mutex<LockedBook<N, K>>,
    share: Share<N>,
}

// It is written out, so that a caller does not prove again how each part is dropped.
impl<'a, N: Server, K: EntryStore> Drop for Desk<'a, N, K> {
    fn drop(self) {
        let Desk { lock: _, share: _ } = self;
    }
}

impl<'a, N: Server, K: EntryStore> Model for Desk<'a, N, K> {
    ghost use Rattle.std.specs.Prelude.{◌≡◌, ℕ};
    ghost use Rattle.std.specs.Coded.{coded_ℕ};

    ghost Value = { ℕ };

    ghost coded = { coded_ℕ };

    ghost view = { λ d. d.share.amount };

    // One part, which it can't lend to another who would enter something.
    ghost invariant = { λ d. d.share.parts ≡ 1 };
}

impl<'a, N: Server, K: EntryStore> Desk<'a, N, K> {
    pub(crate) fn over(lock: &'a Mutex<LockedBook<N, K>>, place: DeskPlace<N>) -> Desk<'a, N, K>
        ensures { result ≡ 0 }
    {
        let DeskPlace { share } = place;
        Desk { lock, share }
    }

    /// Tries the commands of a user, one after another, behind all that was entered before and that a display of this
    /// server has seen. Where memory is refused for the answers, or the store is shut, none is tried; where what was
    /// accepted isn't kept, nothing of it is entered.
    pub fn submit<R: Wait>(
        &mut self,
        rt: &R,
        display: &Display<N>,
        actor: Name,
        batch: &[Command],
    ) -> Result<(Vec<Answer>, Receipt<N>), SubmitFault>
        requires { length batch.now ≤ most_commands }
        ensures published { IsPublished N.opening display.now }
        ensures receipt { IfOk result (λ t. (before : List Entry) × IsPrefix (entries_of display.now) before
            × IsSubmitted N.opening before actor batch.now t.0.items t.1
            × EntersJust self.old before self.new (entries_of t.1.published)) }
        ensures none { OnErr result (self.new ≡ self.old) }
        ensures kept { IfOk result (λ t. (store : K) ×
            LeavesJust t.1.published (K.doubt store) (K.leaves store)) }
        ensures fault { IfErr result (λ fault. fault ≢ OutOfMemory → K.fails) }
    {
        let mut locked = lock_behind(rt, self.lock, display);
        locked.submit(rt, &mut self.share, actor, batch)
    }

    /// Tries a command of the solver's, behind all that a display of this server has seen.
    pub fn submit_found_from<R: Wait>(
        &mut self,
        rt: &R,
        display: &Display<N>,
        command: &Command,
    ) -> (Answer, Receipt<N>)
        ensures entered { (before : List Entry) × IsPrefix (entries_of display.now) before
            × IsEntered N.opening before command.now result.0 result.1
            × EntersJust self.old before self.new (entries_of result.1.published) }
        ensures kept { (store : K) × IsKeptBy N.opening result.1.published
            (K.doubt store) (K.is_open store) (K.leaves store) }
    {
        let mut locked = lock_behind(rt, self.lock, display);
        locked.submit_found(rt, &mut self.share, command)
    }

    /// Tries a command of the solver's, behind all that was entered before; a command of users is refused.
    pub fn submit_found<R: Wait>(&mut self, rt: &R, command: &Command) -> (Answer, Receipt<N>)
        ensures entered { (before : List Entry) ×
            IsEntered N.opening before command.now result.0 result.1
            × EntersJust self.old before self.new (entries_of result.1.published) }
        ensures kept { (store : K) × IsKeptBy N.opening result.1.published
            (K.doubt store) (K.is_open store) (K.leaves store) }
    {
        let mut locked = self.lock.lock(rt);
        locked.submit_found(rt, &mut self.share, command)
    }

    /// The entries of the journal from a number on, at most so many, for a user who has the permission for the audit; and
    /// a receipt for just this journal, which begins with all that a display of this server has seen. It enters nothing.
    pub fn audit<R: Wait>(
        &self,
        rt: &R,
        display: &Display<N>,
        actor: Name,
        from: usize,
        limit: usize,
    ) -> (Result<AuditRows, AuditError>, Receipt<N>)
        ensures seen { IsPrefix (entries_of display.now) (entries_of result.1.published) }
        ensures rows { IfOk result.0 (λ rows. rows ≡ audit_rows (entries_of result.1.published) from limit) }
        ensures permitted { OnOk result.0
            (HasPermission (replay N.opening (entries_of result.1.published)).roles actor Audit) }
        ensures refused { IfErr result.0 (λ error. (error ≡ NotPermitted)
            ↔ (¬ HasPermission (replay N.opening (entries_of result.1.published)).roles actor Audit)) }
        ensures valid { IsValid (replay N.opening (entries_of result.1.published)).roles }
        ensures published { IsPublished N.opening result.1.published }
        ensures receipt { result.1 ≡ receipted 0 0 result.1.published }
        ensures kept { (store : K) × IsKeptBy N.opening result.1.published
            (K.doubt store) (K.is_open store) (K.leaves store) }
    {
        let locked = lock_behind(rt, self.lock, display);
        locked.audit(actor, from, limit)
    }

    /// The work that is left at a cell, after a journal that begins with all that a display of this server has seen: the
    /// costs of a confirmed result with a contract and a play, which aren't there yet. It takes no memory.
    pub fn work_of<R: Wait>(&self, rt: &R, display: &Display<N>, cell: Cell) -> Option<Work>
        ensures { (before : List Entry) × IsPrefix (entries_of display.now) before
            × IsWorkLeft (replay N.opening before) cell result }
    {
        let book = lock_behind(rt, self.lock, display);
        work_of(book.state(), cell)
    }
}

// The lock, once all is published that a display has seen. A display sees nothing else, so the first turn has it.
fn lock_behind<'a, N: Server, K: EntryStore, R: Wait>(
    rt: &R,
    lock: &'a Mutex<LockedBook<N, K>>,
    display: &Display<N>,
) -> MutexGuard<'a, LockedBook<N, K>>
    ensures begins { IsPrefix (entries_of display.now) (entries_of (mutex_guard_value result).published) }
    ensures published { IsPublished N.opening display.now }
{
    for _ in rt.forever() {
        let locked = lock.lock(rt);
        if locked.has_seen(display) {
            return locked;
        }
    }
    unreachable!()
}
