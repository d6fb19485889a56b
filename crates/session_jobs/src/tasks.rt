//! What the threads do that solve.

ghost use Rattle.std.specs.Prelude.{◌≡◌, All, IfOk};

use crate::job_queue::JobQueue;
use crossbeam_channel::{Receiver, Sender, unbounded};
use service_threads::Task;
use solver_pool::{Done, Gate, run_worker};
use std::alloc::{AllocError, Global};
use std::cell::Cell;
use std::sync::Wait;
use std::time::{Clock, Duration, Instant};

/// Solves the jobs that come, and has tables given out as it is done with them. How long each took is noted, if it is to be.
pub struct Solve<'a> {
    alloc: Global,
    queue: &'a JobQueue,
    results: Sender<Done>,
    /// How many visits may be made for a job.
    pub budget: u64,
    is_timed: bool,
}

// It is written out, so that a caller does not prove again how each part is dropped.
impl<'a> Drop for Solve<'a> {
    fn drop(self) {
        let Solve {
            alloc: _,
            queue: _,
            results: _,
            budget: _,
            is_timed: _,
        } = self;
    }
}

impl<'a> Task for Solve<'a> {
    fn run<R: Wait + Clock>(self, rt: &R) {
        let Solve {
            alloc,
            queue,
            results,
            budget,
            is_timed,
        } = self;
        let gate = QueueGate {
            rt,
            queue,
            is_timed,
            begun: Cell::new(None),
        };
        run_worker(rt, alloc, &gate, queue.jobs(), &results, budget);
    }
}

/// What the workers of a queue do, each with so many visits for a job, and where what they find comes.
pub fn workers_of(
    alloc: Global,
    queue: &JobQueue,
    budget: u64,
    is_timed: bool,
) -> Result<(Vec<Solve<'_>>, Receiver<Done>), AllocError>
    ensures budget { IfOk result (λ t. All (λ worker. worker.budget ≡ budget) t.0.items) }
{
    let (from_workers, results) = unbounded::<Done, Global>(alloc)?;
    let solvers = solvers(alloc, queue, from_workers, budget, is_timed)?;
    Ok((solvers, results))
}

// What the workers do.
fn solvers(
    alloc: Global,
    queue: &JobQueue,
    from_workers: Sender<Done>,
    budget: u64,
    is_timed: bool,
) -> Result<Vec<Solve<'_>>, AllocError>
    ensures { IfOk result (λ solvers. All (λ solver. solver.budget ≡ budget) solvers.items) }
{
    let mut solvers = Vec::with_capacity(alloc, queue.workers() as usize)?;
    for _ in 0..queue.workers() {
        let results = from_workers.clone()?;
        solvers.push(Solve {
            alloc,
            queue,
            results,
            budget,
            is_timed,
        })?;
    }
    Ok(solvers)
}

/// Lets each job pass, and tells the queue that it is done, and how long it took.
#[derive(Drop)]
struct QueueGate<'a, R: Wait + Clock> {
    rt: &'a R,
    queue: &'a JobQueue,
    is_timed: bool,
    // When the job was begun that is being solved.
    begun: Cell<Option<Instant>>,
}

impl<R: Wait + Clock> Gate for QueueGate<'_, R> {
    fn pass(&self, _job: u32) {
        if self.is_timed {
            self.begun.set(now(self.rt));
        }
    }

    fn done(&self, job: u32) {
        let took = time_since(self.rt, self.begun.get());
        self.queue.done(self.rt, job, took);
    }
}

// What the clock says, if it can be read.
fn now<R: Clock>(rt: &R) -> Option<Instant> {
    match Instant::now(rt) {
        Ok(now) => Some(now),
        Err(_) => None,
    }
}

// How long ago something was begun, where the clock could be read then and now.
fn time_since<R: Clock>(rt: &R, begun: Option<Instant>) -> Option<Duration> {
    let begun = begun?;
    let now = now(rt)?;
    Some(now.duration_since(begun))
}

/// Closes the way to the workers, and drops the jobs that still wait: nobody is left to see what they would find.
#[derive(Drop)]
pub struct CloseQueue<'a> {
    pub queue: &'a JobQueue,
}

impl<'a> Task for CloseQueue<'a> {
    fn run<R: Wait + Clock>(self, rt: &R) {
        let CloseQueue { queue } = self;
        queue.close(rt);
        for _job in queue.jobs().try_iter(rt) {}
    }
}
