//! A desk and a display of one server, as a connection sees them.

ghost use Rattle.std.specs.Prelude.{◌≡◌, List};
ghost use mathlib.Core.List.{IsPrefix};
ghost use Rattle.session_commands.specs.declared.entry.Entry.{Entry};
ghost use Rattle.session_book.specs.Journal.{replay};
ghost use Rattle.history.specs.Prefixes.{entries_of};
ghost use Rattle.session_jobs.specs.Work.{IsWorkLeft};

use crate::desk::Desk;
use displays::{Display, Server};
use entry_store::EntryStore;
use movement::Cell;
use published_view::{NoEntry, QueryFault};
use session_book::{Answer, Submission};
use session_commands::Command;
use session_keeper::{AuditReceipt, BatchReceipt, CommandKeeper, Keeper, SubmitFault};
use session_queries::{Query, Reply};
use session_roles::Edition;
use solver_pool::Work;
use std::alloc::Global;
use std::sync::Wait;
use user_names::{Digest, Name};

/// Keeps a session for a connection beside others: a desk, to which its commands go, and a display, which answers its
/// queries and learns of each receipt. It stands for what the display has seen, and has entered what the desk has.
pub struct DeskKeeper<'a, N: Server, K: EntryStore> {
    desk: Desk<'a, N, K>,
    display: Display<N>,
}

// It is written out, so that a caller does not prove again how each part is dropped.
impl<'a, N: Server, K: EntryStore> Drop for DeskKeeper<'a, N, K> {
    fn drop(self) {
        let DeskKeeper {
            desk: _,
            display: _,
        } = self;
    }
}

impl<'a, N: Server, K: EntryStore> DeskKeeper<'a, N, K> {
    /// A keeper of what the display has seen.
    pub fn new(desk: Desk<'a, N, K>, display: Display<N>) -> DeskKeeper<'a, N, K>
        ensures display { result.display ≡ display }
        ensures desk { result.desk ≡ desk.entry }
    {
        DeskKeeper { desk, display }
    }

    /// The work that is left at a cell, after a journal that begins with all that the display has seen.
    pub fn work_of<R: Wait>(&self, rt: &R, cell: Cell) -> Option<Work>
        ensures { (before : List Entry) × IsPrefix (entries_of self.now.display) before
            × IsWorkLeft (replay N.opening before) cell result }
    {
        self.desk.work_of(rt, &self.display, cell)
    }
}

impl<'a, N: Server, K: EntryStore> Keeper for DeskKeeper<'a, N, K> {
    ghost use mathlib.Core.List.{IsPrefix};
    ghost use Rattle.history.specs.Prefixes.{entries_of};

    ghost opening = { λ _. N.opening };

    ghost journal = { λ r. entries_of r.display };

    ghost own_entries = { λ r. r.desk };

    ghost others = { λ before after. IsPrefix before after };

    ghost no_entry = { Unit {0} };

    ghost not_kept = { K.fails };

    fn edition(&self) -> Edition {
        self.display.edition()
    }

    fn query(
        &mut self,
        alloc: Global,
        user: Name,
        query: &Query,
        since: u64,
    ) -> Result<Reply, QueryFault> {
        self.display.query(alloc, user, query, since)
    }

    fn digest(&mut self, name: Name) -> Result<Option<Digest>, NoEntry> {
        self.display.digest(name)
    }
}

impl<'a, N: Server, K: EntryStore, R: Wait> CommandKeeper<R> for DeskKeeper<'a, N, K> {
    fn submit(
        &mut self,
        rt: &R,
        actor: Name,
        batch: &[Command],
    ) -> Result<BatchReceipt, SubmitFault> {
        let (answers, receipt) = self.desk.submit(rt, &self.display, actor, batch)?;
        self.display.learn(&receipt);
        let submission = Submission {
            answers,
            first: receipt.first(),
            last: receipt.last(),
        };
        Ok(BatchReceipt {
            submission,
            version: receipt.version(),
        })
    }

    fn submit_found(&mut self, rt: &R, command: &Command) -> Answer {
        let (answer, receipt) = self.desk.submit_found_from(rt, &self.display, command);
        self.display.learn(&receipt);
        answer
    }

    fn audit(&mut self, rt: &R, actor: Name, from: usize, limit: usize) -> AuditReceipt {
        let (rows, receipt) = self.desk.audit(rt, &self.display, actor, from, limit);
        self.display.learn(&receipt);
        AuditReceipt {
            rows,
            version: receipt.version(),
        }
    }
}
