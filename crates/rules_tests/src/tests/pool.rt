//! The pool and its workers: what it refuses, that workers work beside one another, what they find and when, and what
//! becomes of a result for which there is no room.

mod answering;
mod beside;
mod dropping;
mod pooling;
mod solving;
mod timing;

use cards::Deal;
use crossbeam_channel::{Receiver, Sender, unbounded};
use solver_pool::{Done, Job, OpenGate, Work, run_worker};
use std::alloc::Global;
use std::sync::Wait;

/// North has the spades, East the hearts, South the diamonds and West the clubs.
const SUITS: &str = "N:AKQJT98765432... .AKQJT98765432.. ..AKQJT98765432. ...AKQJT98765432";

/// East has the spades, South the hearts, West the diamonds and North the clubs.
const TURNED: &str = "E:AKQJT98765432... .AKQJT98765432.. ..AKQJT98765432. ...AKQJT98765432";

/// The table of the first of these deals.
pub(crate) fn table_work() -> Option<Work> {
    table_of(1, SUITS)
}

/// The table of a board.
fn table_of(board: u8, deal: &str) -> Option<Work> {
    let deal = deal.parse::<Deal>().ok()?;
    Some(Work::Table { board, deal })
}

/// A channel to workers, and one from them.
type Channels = ((Sender<Job>, Receiver<Job>), (Sender<Done>, Receiver<Done>));

fn channels(alloc: Global) -> Option<Channels> {
    let Ok(to_workers) = unbounded(alloc) else {
        return None;
    };
    let Ok(from_workers) = unbounded(alloc) else {
        return None;
    };
    Some((to_workers, from_workers))
}

/// Sends so many jobs of this work, numbered from 1, as far as there is room. No more can come after them.
fn send_jobs(rt: &impl Wait, to_worker: Sender<Job>, work: &Work, count: u32) {
    for number in 1..=count {
        let work = *work;
        let _ = to_worker.send(rt, Job { number, work });
    }
}

/// The results of a worker that has so many jobs of this work, and so many visits for each.
fn results_of(
    rt: &impl Wait,
    alloc: Global,
    work: &Work,
    count: u32,
    visits: u64,
) -> Option<Receiver<Done>> {
    let ((to_worker, jobs), (from_worker, results)) = channels(alloc)?;
    send_jobs(rt, to_worker, work, count);
    run_worker(rt, alloc, &OpenGate, &jobs, &from_worker, visits);
    Some(results)
}
