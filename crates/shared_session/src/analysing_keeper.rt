//! A keeper that has analysed what it is told.

use desks::DeskKeeper;
use displays::Server;
use entry_store::EntryStore;
use event_log::SharedLog;
use movement::Cell;
use published_view::{NoEntry, QueryFault};
use session_book::Answer;
use session_commands::{Command, Target, Touched};
use session_events::hear_batch;
use session_jobs::JobQueue;
use session_keeper::{AuditReceipt, BatchReceipt, CommandKeeper, Keeper, SubmitFault};
use session_queries::{Query, Reply};
use session_roles::Edition;
use std::alloc::Global;
use std::sync::Wait;
use std::time::Clock;
use user_names::{Digest, Name};

/// A desk and a display that keep a session, and the queue of jobs, if anybody solves: what a confirmed or a corrected
/// result leaves to find is queued before the batch is answered. What became of a batch is logged, if there is a log.
pub struct AnalysingKeeper<'a, N: Server, K: EntryStore> {
    /// What keeps the session.
    pub keeper: DeskKeeper<'a, N, K>,
    /// The way to the workers, if there are any.
    pub queue: Option<&'a JobQueue>,
    /// What hears of batches, if there is a log.
    pub log: Option<&'a SharedLog>,
}

// It is written out, so that a caller does not prove again how each part is dropped.
impl<'a, N: Server, K: EntryStore> Drop for AnalysingKeeper<'a, N, K> {
    fn drop(self) {
        let AnalysingKeeper {
            keeper: _,
            queue: _,
            log: _,
        } = self;
    }
}

impl<'a, N: Server, K: EntryStore> AnalysingKeeper<'a, N, K> {
    // Queues what is left to find of each result that was accepted.
    fn analyse<R: Wait>(&self, rt: &R, batch: &[Command], answers: &[Answer]) {
        let Some(queue) = self.queue else {
            return;
        };
        for place in 0..batch.len().min(answers.len()) {
            self.analyse_one(rt, queue, &batch[place], &answers[place]);
        }
    }

    // Queues what is left to find of a result that a command made, if it was accepted.
    fn analyse_one<R: Wait>(&self, rt: &R, queue: &JobQueue, command: &Command, answer: &Answer) {
        if let Answer::Refused(_) = answer {
            return;
        }
        if let Some(cell) = counted_cell(command)
            && let Some(work) = self.keeper.work_of(rt, cell)
        {
            queue.add(rt, work);
        }
    }
}

impl<'a, N: Server, K: EntryStore> Keeper for AnalysingKeeper<'a, N, K> {
    ghost use mathlib.Core.List.{IsPrefix};
    ghost use Rattle.history.specs.Prefixes.{entries_of};

    ghost opening = { λ _. N.opening };

    ghost journal = { λ k. entries_of k.keeper.display };

    ghost own_entries = { λ k. k.keeper.desk };

    ghost others = { λ before after. IsPrefix before after };

    ghost no_entry = { Unit {0} };

    ghost not_kept = { K.fails };

    fn edition(&self) -> Edition {
        self.keeper.edition()
    }

    fn query(
        &mut self,
        alloc: Global,
        user: Name,
        query: &Query,
        since: u64,
    ) -> Result<Reply, QueryFault> {
        self.keeper.query(alloc, user, query, since)
    }

    fn digest(&mut self, name: Name) -> Result<Option<Digest>, NoEntry> {
        self.keeper.digest(name)
    }
}

impl<'a, N: Server, K: EntryStore, R: Wait + Clock> CommandKeeper<R> for AnalysingKeeper<'a, N, K> {
    fn submit(
        &mut self,
        rt: &R,
        actor: Name,
        batch: &[Command],
    ) -> Result<BatchReceipt, SubmitFault> {
        let outcome = self.keeper.submit(rt, actor, batch);
        if let Some(log) = self.log {
            hear_batch(rt, log, actor, batch, &outcome);
        }
        if let Ok(receipt) = &outcome {
            self.analyse(rt, batch, receipt.submission.answers.as_slice());
        }
        outcome
    }

    fn submit_found(&mut self, rt: &R, command: &Command) -> Answer {
        self.keeper.submit_found(rt, command)
    }

    fn audit(&mut self, rt: &R, actor: Name, from: usize, limit: usize) -> AuditReceipt {
        self.keeper.audit(rt, actor, from, limit)
    }
}

// The cell whose result a command makes or changes so that its board may be complete. What is left to find there, if anything,
// the desk says.
fn counted_cell(command: &Command) -> Option<Cell> {
    let row = command.row();
    let Target::Cell(cell) = row.target else {
        return None;
    };
    match row.touched {
        Touched::Board(_) => Some(cell),
        Touched::Nothing | Touched::User(_) | Touched::Everything => None,
    }
}
