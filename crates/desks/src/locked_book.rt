//! What lies under the lock.

ghost use Rattle.std.specs.Prelude.{◌≡◌, ◌≢◌, ◌≤◌, ◌<◌, ◌+◌, ◌↔◌, List, true, false, [], length, IfOk, IfErr, OnOk, OnErr};
ghost use mathlib.Core.List.{IsPrefix};
ghost use Rattle.rbac.specs.Authorization.{HasPermission, IsValid};
ghost use Rattle.session_roles.specs.declared.operation.Operation.TheVariants.{Audit};
ghost use Rattle.session_book.specs.Audit.{audit_rows};
ghost use Rattle.session_book.specs.declared.audit.AuditError.TheVariants.{NotPermitted};
ghost use Rattle.session_book.specs.Journal.{replay};
ghost use Rattle.session_book.specs.Run.{most_commands};
ghost use Rattle.session_commands.specs.declared.entry.Entry.{Entry};
ghost use Rattle.session_keeper.specs.Keeping.{EntersJust};
ghost use Rattle.session_keeper.specs.declared.submit_fault.SubmitFault.TheVariants.{OutOfMemory, Unsure};
ghost use Rattle.entry_store.specs.Keeping.{LeavesAsBefore};
ghost use Rattle.history.specs.Prefixes.{entries_of};
ghost use Rattle.displays.specs.Copies.{IsPublished};
ghost use Rattle.displays.specs.Publishing.{receipted};
ghost use Rattle.desks.specs.Batch.{IsSubmitted, IsEntered};
ghost use Rattle.desks.specs.Kept.{IsKeptBy, LeavesJust, LeavesAll};

use crate::batches::{batch, found};
use displays::{Display, Publisher, Receipt, Server};
use entry_store::EntryStore;
use session_book::{Answer, AuditError, AuditRows, Book};
use session_commands::Command;
use session_keeper::SubmitFault;
use session_state::State;
use std::alloc::Global;
use std::marker::Model;
use std::mem::ManuallyDrop;
use std::sync::ledger::Share;
use std::sync::{Wait, ledger};
use user_names::Name;

/// A book, its publisher and its store: the journal is what was published, nothing is pending, and whatever a crash leaves
/// is what was published, or, where the store has shut, maybe one publication more. What all who share it have entered
/// adds up to the journal. Contracts see the publications and the store.
pub struct LockedBook<N: Server, K: EntryStore> {
    book: Book,
    // A guard drops nothing, so that what it lends may be what can't be dropped.
    publisher: ManuallyDrop<Publisher<N>>,
    store: K,
    // Counts what joined the journal: nobody enters anything but by a share of it.
    tally: ledger::Book<N>,
    alloc: Global,
}

impl<N: Server, K: EntryStore> Model for LockedBook<N, K> {
    ghost use Rattle.std.specs.Prelude.{◌≡◌, [], length};
    ghost use Rattle.std.specs.Mem.{manually_drop_value};
    ghost use Rattle.history.specs.Prefixes.{entries_of};
    ghost use Rattle.desks.specs.Batch.{KeptPublications, kept_publications_code};
    ghost use Rattle.desks.specs.Kept.{IsKeptBy};

    ghost Value = { KeptPublications K };

    ghost coded = { kept_publications_code K.code };

    ghost view = { λ l. record {
      published = (manually_drop_value l.publisher).published;
      store = l.store;
    } };

    ghost invariant = { λ l. (l.book.opening ≡ N.opening)
        × (entries_of (manually_drop_value l.publisher).published ≡ l.book.journal)
        × ((manually_drop_value l.publisher).pending ≡ [])
        × IsKeptBy N.opening (manually_drop_value l.publisher).published (K.doubt l.store)
        (K.is_open l.store) (K.leaves l.store)
        × (l.tally.total ≡ length l.book.journal) };
}

impl<N: Server, K: EntryStore> LockedBook<N, K> {
    pub(crate) fn new(
        alloc: Global,
        book: Book,
        publisher: Publisher<N>,
        store: K,
        tally: ledger::Book<N>,
    ) -> LockedBook<N, K>
        requires opening { book.opening ≡ N.opening }
        requires published { (entries_of publisher.published ≡ book.journal) × (publisher.pending ≡ []) }
        requires kept { LeavesJust publisher.published (K.doubt store) (K.leaves store) }
        requires tally { tally.total ≡ length book.journal }
        ensures { result ≡ record { published = publisher.published; store = store } }
    {
        LockedBook {
            book,
            publisher: unsafe { ManuallyDrop::new_unchecked(publisher) },
            store,
            tally,
            alloc,
        }
    }

    /// The state to which the journal leads.
    pub(crate) fn state(&self) -> &State
        ensures { result.now ≡ replay N.opening (entries_of self.now.published) }
    {
        let _published = self.publisher.tell();
        self.book.state()
    }

    /// Tries a user's batch, for one who has a share of the count.
    pub(crate) fn submit<R: Wait>(
        &mut self,
        rt: &R,
        share: &mut Share<N>,
        actor: Name,
        commands: &[Command],
    ) -> Result<(Vec<Answer>, Receipt<N>), SubmitFault>
        requires few { length commands.now ≤ most_commands }
        requires part { 0 < share.old.parts }
        ensures submitted { IfOk result (λ t.
            IsSubmitted N.opening (entries_of self.old.published) actor commands.now t.0.items t.1) }
        ensures left { IfOk result (λ t. self.new.published ≡ t.1.published) }
        ensures none { OnErr result (self.new.published ≡ self.old.published) }
        ensures entered { EntersJust share.old.amount (entries_of self.old.published)
            share.new.amount (entries_of self.new.published) }
        ensures parts { share.new.parts ≡ share.old.parts }
        ensures kept { IfOk result (λ t.
            LeavesJust t.1.published (K.doubt self.new.store) (K.leaves self.new.store)) }
        ensures fault { IfErr result (λ fault. fault ≢ OutOfMemory → K.fails) }
        ensures unsure { IfErr result (λ fault.
            fault ≡ Unsure → K.doubt self.new.store ≡ 0 → K.is_open self.new.store ≡ false) }
        ensures unkept { IfErr result (λ fault. fault ≢ Unsure → K.doubt self.new.store ≡ 0 →
            LeavesAsBefore (K.leaves self.old.store) (K.leaves self.new.store)) }
        ensures goes_on { IfErr result (λ fault.
            fault ≢ Unsure → K.is_open self.new.store ≡ K.is_open self.old.store) }
    {
        let before = self.book.version();
        let told = batch(
            rt,
            self.alloc,
            &mut self.book,
            &mut self.publisher,
            &mut self.store,
            actor,
            commands,
        );
        let entered = self.book.version() - before;
        self.tally.add(share, entered as u64);
        told
    }

    /// Tries a command of the solver's, for one who has a share of the count.
    pub(crate) fn submit_found<R: Wait>(
        &mut self,
        rt: &R,
        share: &mut Share<N>,
        command: &Command,
    ) -> (Answer, Receipt<N>)
        requires part { 0 < share.old.parts }
        ensures submitted { IsEntered N.opening (entries_of self.old.published) command.now result.0 result.1 }
        ensures left { self.new.published ≡ result.1.published }
        ensures entered { EntersJust share.old.amount (entries_of self.old.published)
            share.new.amount (entries_of self.new.published) }
        ensures parts { share.new.parts ≡ share.old.parts }
        ensures kept { IsKeptBy N.opening result.1.published
            (K.doubt self.new.store) (K.is_open self.new.store) (K.leaves self.new.store) }
    {
        let before = self.book.version();
        let told = found(
            rt,
            &mut self.book,
            &mut self.publisher,
            &mut self.store,
            command,
        );
        let entered = self.book.version() - before;
        self.tally.add(share, entered as u64);
        told
    }

    /// Whether all that a display has seen is published here. Then whatever a crash leaves now begins with all of it.
    pub fn has_seen(&self, display: &Display<N>) -> bool
        ensures seen { (result ≡ true) ↔ IsPrefix display.now self.now.published }
        ensures begins { result ≡ true → IsPrefix (entries_of display.now) (entries_of self.now.published) }
        ensures published { IsPublished N.opening display.now }
        ensures kept { result ≡ true →
            LeavesAll N.opening display.now (K.doubt self.now.store) (K.leaves self.now.store) }
    {
        let _published = self.publisher.tell();
        display.is_behind(&self.publisher)
    }

    /// The rows of an audit, and a receipt for the journal that they are of.
    pub(crate) fn audit(
        &self,
        actor: Name,
        from: usize,
        limit: usize,
    ) -> (Result<AuditRows, AuditError>, Receipt<N>)
        ensures rows { IfOk result.0 (λ rows. rows ≡ audit_rows (entries_of result.1.published) from limit) }
        ensures permitted { OnOk result.0
            (HasPermission (replay N.opening (entries_of result.1.published)).roles actor Audit) }
        ensures refused { IfErr result.0 (λ error. (error ≡ NotPermitted)
            ↔ (¬ HasPermission (replay N.opening (entries_of result.1.published)).roles actor Audit)) }
        ensures valid { IsValid (replay N.opening (entries_of result.1.published)).roles }
        ensures published { IsPublished N.opening result.1.published }
        ensures receipt { result.1 ≡ receipted 0 0 self.now.published }
        ensures kept { IsKeptBy N.opening result.1.published
            (K.doubt self.now.store) (K.is_open self.now.store) (K.leaves self.now.store) }
    {
        let rows = self.book.audit(actor, from, limit);
        (rows, self.publisher.tell())
    }

    /// Drops the book, ends the publisher, and gives the store back, of which whatever a crash leaves is an accepted journal
    /// in publications. It may wait for readers.
    pub(crate) fn close<R: Wait>(self, rt: &R) -> K
        ensures kept { (published : List (List Entry)) × IsPublished N.opening published
            × IsKeptBy N.opening published (K.doubt result) (K.is_open result) (K.leaves result) }
    {
        let LockedBook {
            book,
            publisher,
            store,
            tally,
            alloc: _,
        } = self;
        drop(book);
        drop(tally);
        let publisher = ManuallyDrop::into_inner(publisher);
        let _published = publisher.tell();
        publisher.close(rt);
        store
    }
}
