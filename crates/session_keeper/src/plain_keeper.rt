//! The plain keeper: it keeps its session alone, waits for nobody, and each version can be entered.

ghost use Rattle.std.specs.Prelude.{◌≡◌, ◌+◌, ◌<◌, ◌≤◌, [], length, IfOk};
ghost use Rattle.session_state.specs.Refusal.{most_entries};
ghost use Rattle.session_book.specs.Journal.{IsAccepted, state_of};
ghost use Rattle.published_view.specs.View.{StandsFor};
ghost use Rattle.session_keeper.specs.PlainKeeping.{IsBehind};

use crate::command_keeper::CommandKeeper;
use crate::keeper::Keeper;
use crate::receipt::{AuditReceipt, BatchReceipt};
use crate::submit_fault::SubmitFault;
use published_view::{NoEntry, QueryFault, View};
use session_book::{Answer, Book};
use session_commands::Command;
use session_queries::{Query, Reply};
use session_roles::Edition;
use session_state::State;
use std::alloc::{AllocError, Global};
use std::marker::Model;
use user_names::{Digest, Name};

/// One book and one view of it: what the book accepts, the view takes in before the next call.
pub struct PlainKeeper {
    book: Book,
    view: View,
}

// It is written out, so that a caller does not prove again how each part is dropped.
impl Drop for PlainKeeper {
    fn drop(self) {
        let PlainKeeper { book: _, view: _ } = self;
    }
}

impl Model for PlainKeeper {
    ghost use Rattle.session_book.specs.Journal.{Ledger, ledger_code};

    ghost Value = { Ledger };

    ghost coded = { ledger_code };

    ghost use Rattle.session_keeper.specs.PlainKeeping.{IsUpToDate};

    ghost view = { λ k. k.book };

    ghost invariant = { IsUpToDate };
}

impl PlainKeeper {
    /// Keeps a book in which nothing is entered yet, with all the room that a view of it can need.
    pub fn new(alloc: Global, book: Book) -> Result<PlainKeeper, AllocError>
        requires { book.journal ≡ [] }
        ensures opening { IfOk result (λ keeper. keeper.opening ≡ book.opening) }
        ensures journal { IfOk result (λ keeper. keeper.journal ≡ []) }
    {
        let view = View::open(alloc, &book)?;
        Ok(PlainKeeper { book, view })
    }

    /// The state that the journal leads to.
    pub fn state(&self) -> &State
        ensures state { result.now ≡ state_of self.now }
        ensures accepted { IsAccepted self.now.opening self.now.journal }
    {
        self.book.state()
    }
}

impl Keeper for PlainKeeper {
    ghost use Rattle.std.specs.Prelude.{◌≡◌, length};

    ghost opening = { λ k. k.opening };

    ghost journal = { λ k. k.journal };

    // Nobody else enters anything.
    ghost own_entries = { λ k. length k.journal };

    ghost others = { λ before after. after ≡ before };

    ghost no_entry = { ⊥ };

    ghost not_kept = { ⊥ };

    fn edition(&self) -> Edition {
        self.book.edition()
    }

    fn query(
        &mut self,
        alloc: Global,
        user: Name,
        query: &Query,
        since: u64,
    ) -> Result<Reply, QueryFault> {
        match self.view.answer(alloc, user, query, since) {
            Ok(reply) => Ok(reply),
            Err(_) => Err(QueryFault::OutOfMemory),
        }
    }

    fn digest(&mut self, name: Name) -> Result<Option<Digest>, NoEntry> {
        Ok(self.view.digest(name))
    }
}

impl<H> CommandKeeper<H> for PlainKeeper {
    fn submit(
        &mut self,
        _rt: &H,
        actor: Name,
        batch: &[Command],
    ) -> Result<BatchReceipt, SubmitFault> {
        let Ok(submission) = self.book.submit(actor, batch) else {
            return Err(SubmitFault::OutOfMemory);
        };
        absorb_new(&mut self.view, &self.book);
        Ok(BatchReceipt {
            submission,
            version: self.book.version(),
        })
    }

    fn submit_found(&mut self, _rt: &H, command: &Command) -> Answer {
        let answer = self.book.submit_found(command);
        absorb_new(&mut self.view, &self.book);
        answer
    }

    fn audit(&mut self, _rt: &H, actor: Name, from: usize, limit: usize) -> AuditReceipt {
        AuditReceipt {
            rows: self.book.audit(actor, from, limit),
            version: self.book.version(),
        }
    }
}

// Has the view take in the entries that it hasn't taken in yet.
fn absorb_new(view: &mut View, book: &Book)
    requires behind { IsBehind book.now.opening book.now.journal view.old }
    ensures stands { StandsFor book.now.opening book.now.journal view.new }
    ensures accepted { IsAccepted book.now.opening book.now.journal }
{
    for number in view.version()..book.version() {
        absorb_next(view, book, number);
    }
}

// Has the view take in the entry after so many.
fn absorb_next(view: &mut View, book: &Book, number: usize)
    requires at { view.old.version ≡ number }
    requires more { number < length book.now.journal }
    requires few { length book.now.journal ≤ most_entries }
    requires behind { IsBehind book.now.opening book.now.journal view.old }
    ensures at { view.new.version ≡ number + 1 }
    ensures behind { IsBehind book.now.opening book.now.journal view.new }
{
    if let Some(entry) = book.entry(number + 1) {
        view.absorb(entry);
    }
}
