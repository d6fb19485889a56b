//! The thread that takes in what workers find.

use crate::collecting::collect;
use crossbeam_channel::Receiver;
use desks::Desk;
use displays::Server;
use entry_store::EntryStore;
use event_log::SharedLog;
use service_threads::Task;
use session_events::hear_found;
use session_jobs::JobQueue;
use solver_pool::Done;
use std::sync::Wait;
use std::time::Clock;

/// Enters what the workers find. What was found before, or within too few visits or too little memory, is dropped, and so
/// is what the book refuses. What was found of each job is logged, if there is a log.
pub struct Collect<'a, N: Server, K: EntryStore> {
    /// The desk at which it is entered.
    pub desk: Desk<'a, N, K>,
    /// The queue of the jobs, whose pool tells which result comes for the first time.
    pub queue: &'a JobQueue,
    /// What the workers send.
    pub results: Receiver<Done>,
    /// What hears of it, if there is a log.
    pub log: Option<&'a SharedLog>,
}

// It is written out, so that a caller does not prove again how each part is dropped.
impl<'a, N: Server, K: EntryStore> Drop for Collect<'a, N, K> {
    fn drop(self) {
        let Collect {
            desk: _,
            queue: _,
            results: _,
            log: _,
        } = self;
    }
}

impl<'a, N: Server, K: EntryStore> Task for Collect<'a, N, K> {
    fn run<R: Wait + Clock>(self, rt: &R) {
        let Collect {
            mut desk,
            queue,
            results,
            log,
        } = self;
        for _ in rt.forever() {
            let Ok(done) = results.recv(rt) else {
                break;
            };
            enter(rt, queue, &mut desk, &done);
            if let Some(log) = log {
                hear_found(rt, log, &done, queue.take_time(rt, done.job().number));
            }
        }
    }
}

// Enters what was found of a job.
fn enter<N: Server, K: EntryStore, R: Wait>(
    rt: &R,
    queue: &JobQueue,
    desk: &mut Desk<'_, N, K>,
    done: &Done,
) {
    let mut pool = queue.pool().lock(rt);
    let _told = collect(rt, &mut pool, desk, done);
}
