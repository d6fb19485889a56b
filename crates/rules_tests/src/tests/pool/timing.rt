//! A worker solves a job between the gate's two words, and with just the visits that it has for each.

use super::{channels, results_of, send_jobs, table_of, table_work};
use double_dummy::{Budget, table};
use solver_pool::{Found, Gate, Work, run_worker};
use std::alloc::Global;
use std::sync::Wait;
use std::sync::atomic::{AtomicU64, Ordering};
use std::time::{Clock, Instant};

/// The deal of PBN 2.1's first example, whose table takes more than 20,000 visits.
const MIXED: &str = "N:.63.AKQ987.A9732 A8654.KQ5.T.QJT6 J973.J98742.3.K4 KQT2.AT.J6542.85";

/// A gate that notes how many microseconds after its start a job passed it, and was solved.
#[derive(Drop)]
struct Notes<'a, R: Clock> {
    rt: &'a R,
    start: Instant,
    passed: AtomicU64,
    solved: AtomicU64,
}

impl<R: Clock> Notes<'_, R> {
    fn now(&self) -> u64 {
        match self.start.elapsed(self.rt) {
            Ok(time) => u64::try_from(time.as_micros()).unwrap_or(0),
            Err(_) => 0,
        }
    }
}

impl<R: Clock> Gate for Notes<'_, R> {
    fn pass(&self, _job: u32) {
        self.passed.store(self.now(), Ordering::SeqCst);
    }

    fn done(&self, _job: u32) {
        self.solved.store(self.now(), Ordering::SeqCst);
    }
}

/// How many microseconds lie between the gate's two words about a job of 20,000 visits.
fn time_between(rt: &(impl Wait + Clock), alloc: Global) -> Option<u64> {
    let work = table_of(1, MIXED)?;
    let ((to_worker, jobs), (from_worker, _results)) = channels(alloc)?;
    send_jobs(rt, to_worker, &work, 1);
    let gate = Notes {
        rt,
        start: Instant::now(rt).ok()?,
        passed: AtomicU64::new(0),
        solved: AtomicU64::new(0),
    };
    run_worker(rt, alloc, &gate, &jobs, &from_worker, 20_000);
    let passed = gate.passed.load(Ordering::SeqCst);
    gate.solved.load(Ordering::SeqCst).checked_sub(passed)
}

/// Twenty thousand visits take a hundred microseconds at least, on any machine: five nanoseconds for one.
#[test]
fn a_job_is_solved_after_it_passed_the_gate(rt: HostRuntime) {
    let between = time_between(&rt, rt.alloc());
    assert!(rt; matches!(between, Some(100..)));
}

/// Whether a worker finds a table with so many visits; none where it finds neither a table nor that the visits are too
/// few.
fn finds(rt: &impl Wait, alloc: Global, work: &Work, visits: u64) -> Option<bool> {
    let results = results_of(rt, alloc, work, 1, visits)?;
    let Ok(done) = results.recv(rt) else {
        return None;
    };
    match done.found() {
        Found::Table(_) => Some(true),
        Found::OutOfBudget => Some(false),
        _ => None,
    }
}

/// How many visits the table of a deal takes.
fn visits_of(alloc: Global, work: &Work) -> Option<u64> {
    let Work::Table { deal, .. } = *work else {
        return None;
    };
    let mut budget = Budget::new(1_000_000);
    let Ok(_) = table(alloc, deal, &mut budget) else {
        return None;
    };
    1_000_000u64.checked_sub(budget.left())
}

/// Whether a worker finds a table with just the visits that it takes, and not with one less.
fn needs_each(rt: &impl Wait, alloc: Global) -> Option<bool> {
    let work = table_work()?;
    let visits = visits_of(alloc, &work)?;
    let fewer = visits.checked_sub(1)?;
    Some(finds(rt, alloc, &work, visits)? && !finds(rt, alloc, &work, fewer)?)
}

#[test]
fn a_job_has_just_its_visits(rt: HostRuntime) {
    assert!(rt; needs_each(&rt, rt.alloc()) == Some(true));
}
