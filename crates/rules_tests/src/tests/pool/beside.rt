//! Two workers work beside one another: one of them finishes the second job while the first waits at the gate. They
//! wait for each job, pass the gate, tell the gate, and send the result.

use super::{TURNED, channels, table_of, table_work};
use crossbeam_channel::{Receiver, Sender};
use solver_pool::{Done, Found, Gate, Job, Work, run_worker};
use std::alloc::Global;
use std::sync::Wait;
use std::sync::atomic::{AtomicBool, AtomicU32, Ordering};
use std::thread;
use std::thread::Threads;
use std::time::{Clock, Duration};

/// Two workers with a visit for each job, and their gate. It holds job 1 until job 2 is done, for at most twenty
/// thousand turns of a millisecond, since a busy machine may need some. Job 2 is done once the gate is told of it, where
/// the gate was passed before with as many jobs, and no more than the result of job 3 was sent by then.
#[derive(Drop)]
struct HoldsFirst<'a, R: Wait + Clock> {
    rt: &'a R,
    alloc: Global,
    jobs: &'a Receiver<Job>,
    from_workers: &'a Sender<Done>,
    results: &'a Receiver<Done>,
    passed: AtomicU32,
    told: AtomicU32,
    second_is_done: AtomicBool,
    first_saw_it: AtomicBool,
}

impl<R: Wait + Clock> HoldsFirst<'_, R> {
    fn work(&self) {
        run_worker(self.rt, self.alloc, self, self.jobs, self.from_workers, 1);
    }

    fn awaits_second(&self) -> bool {
        for _ in 0..20_000 {
            if self.second_is_done.load(Ordering::SeqCst) {
                return true;
            }
            thread::sleep(self.rt, Duration::from_millis(1));
        }
        false
    }

    /// Whether job 1 was held until job 2 was done, and three jobs passed the gate, told it and were answered: a visit
    /// is too few for each.
    fn is_satisfied(&self) -> bool {
        self.first_saw_it.load(Ordering::SeqCst)
            && self.passed.load(Ordering::SeqCst) == 3
            && self.told.load(Ordering::SeqCst) == 3
            && self.results.len() == 3
            && self.are_unsolved()
    }

    fn are_unsolved(&self) -> bool {
        for _ in 0..3 {
            match self.results.try_recv(self.rt) {
                Ok(done) if matches!(done.found(), Found::OutOfBudget) => {}
                _ => return false,
            }
        }
        true
    }
}

impl<R: Wait + Clock> Gate for HoldsFirst<'_, R> {
    fn pass(&self, job: u32) {
        self.passed.fetch_add(1, Ordering::SeqCst);
        if job == 1 && self.awaits_second() {
            self.first_saw_it.store(true, Ordering::SeqCst);
        }
    }

    fn done(&self, job: u32) {
        let told = self.told.fetch_add(1, Ordering::SeqCst);
        let is_in_turn = told < self.passed.load(Ordering::SeqCst) && self.results.len() <= 1;
        if job == 2 && is_in_turn {
            self.second_is_done.store(true, Ordering::SeqCst);
        }
    }
}

/// Sends jobs 3, 1 and 2, each after a while: the second is of another board.
fn send_slowly(rt: &(impl Wait + Clock), to_workers: Sender<Job>, first: &Work, second: &Work) {
    for (number, work) in [(3, first), (1, first), (2, second)] {
        thread::sleep(rt, Duration::from_millis(20));
        let work = *work;
        let _ = to_workers.send(rt, Job { number, work });
    }
}

/// Whether job 2 is done while job 1 waits. The first worker has each job but the last to itself, and waits for it: the
/// other one sends the jobs, and then works too.
fn work_beside<R: Threads + Wait + Clock + Sync>(rt: &R, alloc: Global) -> Option<bool> {
    let (first, second) = (table_work()?, table_of(2, TURNED)?);
    let ((to_workers, jobs), (from_workers, results)) = channels(alloc)?;
    let workers = HoldsFirst {
        rt,
        alloc,
        jobs: &jobs,
        from_workers: &from_workers,
        results: &results,
        passed: AtomicU32::new(0),
        told: AtomicU32::new(0),
        second_is_done: AtomicBool::new(false),
        first_saw_it: AtomicBool::new(false),
    };
    thread::join(
        rt,
        || workers.work(),
        || {
            send_slowly(rt, to_workers, &first, &second);
            workers.work();
        },
    );
    Some(workers.is_satisfied())
}

#[test]
fn the_second_job_is_done_while_the_first_waits(rt: HostRuntime) {
    assert!(rt; work_beside(&rt, rt.alloc()) == Some(true));
}
