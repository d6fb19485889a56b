//! A worker sends what it found of the jobs that it was given, and of no other.

use super::{SUITS, TURNED, channels, table_of};
use cards::Deal;
use crossbeam_channel::{Receiver, Sender};
use solver_pool::{Done, Job, OpenGate, Work, run_worker};
use std::alloc::Global;
use std::sync::Wait;

/// Jobs: the number of each, which need not be its place, the board and the deal.
static JOBS: [(u32, u8, &str); 4] = [
    (9, 1, SUITS),
    (3, 2, TURNED),
    (3, 5, SUITS),
    (70_000, 1, TURNED),
];

/// Sends each of these jobs. No more can come after them.
fn send_each(rt: &impl Wait, to_worker: Sender<Job>) -> Option<()> {
    for &(number, board, deal) in &JOBS {
        let work = table_of(board, deal)?;
        let _ = to_worker.send(rt, Job { number, work });
    }
    Some(())
}

/// Whether a job is that of a row.
fn is_of(job: &Job, row: &(u32, u8, &str)) -> bool {
    let &(number, board, deal) = row;
    match job.work {
        Work::Table {
            board: own_board,
            deal: own_deal,
        } => {
            job.number == number
                && own_board == board
                && deal.parse::<Deal>().ok() == Some(own_deal)
        }
        Work::Costs { .. } => false,
    }
}

/// Whether the results are of these jobs, one of each, in their order, and there is no other.
fn are_of_each(rt: &impl Wait, results: &Receiver<Done>) -> bool {
    for row in &JOBS {
        match results.try_recv(rt) {
            Ok(done) if is_of(&done.job(), row) => {}
            _ => return false,
        }
    }
    results.is_empty()
}

/// Whether a worker without visits answers just these jobs.
fn answers_each(rt: &impl Wait, alloc: Global) -> Option<bool> {
    let ((to_worker, jobs), (from_worker, results)) = channels(alloc)?;
    send_each(rt, to_worker)?;
    run_worker(rt, alloc, &OpenGate, &jobs, &from_worker, 0);
    Some(are_of_each(rt, &results))
}

#[test]
fn a_worker_answers_the_jobs_that_it_was_given(rt: HostRuntime) {
    assert!(rt; answers_each(&rt, rt.alloc()) == Some(true));
}
