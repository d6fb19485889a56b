//! What the pool takes, and what it refuses.

use super::{results_of, table_work};
use crossbeam_channel::Receiver;
use solver_pool::{AddError, CollectError, Done, Found, Job, Pool, Work, solve_job};
use std::alloc::Global;
use std::sync::Wait;

/// Whether the pool gives the work this number.
fn is_given(pool: &mut Pool, number: u32, work: &Work) -> bool {
    match pool.add(*work) {
        Ok(job) => job.number == number,
        Err(_) => false,
    }
}

/// Whether the numbers 1 to 70000 are given in turn, and then no more.
fn gives_all(pool: &mut Pool, work: &Work) -> bool {
    for number in 1..70_001 {
        if !is_given(pool, number, work) {
            return false;
        }
    }
    pool.add(*work).err() == Some(AddError::PoolFull)
}

/// Whether the next result is one of too few visits, and the pool takes it.
fn takes_next(rt: &impl Wait, pool: &mut Pool, results: &Receiver<Done>) -> bool {
    match results.recv(rt) {
        Ok(done) => matches!(done.found(), Found::OutOfBudget) && pool.collect(&done) == Ok(()),
        Err(_) => false,
    }
}

/// Whether 70,000 results came, and the pool takes each.
fn takes_all(rt: &impl Wait, pool: &mut Pool, results: &Receiver<Done>) -> bool {
    for _ in 0..70_000 {
        if !takes_next(rt, pool, results) {
            return false;
        }
    }
    results.is_empty()
}

/// The numbers of results that come once more, or of no job, and why the pool doesn't take them.
static LATE: [(u32, CollectError); 6] = [
    (2, CollectError::Double),
    (1, CollectError::Double),
    (70_000, CollectError::Double),
    (0, CollectError::Stranger),
    (70_001, CollectError::Stranger),
    (u32::MAX, CollectError::Stranger),
];

fn refuses_late(alloc: Global, pool: &mut Pool, work: &Work) -> bool {
    for &(number, error) in &LATE {
        let work = *work;
        if pool.collect(&solve_job(alloc, Job { number, work }, 0)) != Err(error) {
            return false;
        }
    }
    true
}

/// Whether a new pool gives 70,000 jobs, and takes these results of them once.
fn pools(rt: &impl Wait, alloc: Global, work: &Work, results: &Receiver<Done>) -> bool {
    let Ok(mut pool) = Pool::new(alloc) else {
        return false;
    };
    gives_all(&mut pool, work)
        && takes_all(rt, &mut pool, results)
        && refuses_late(alloc, &mut pool, work)
}

/// Whether a worker without visits answers each of 70,000 jobs, and a pool takes each result.
fn answers_all(rt: &impl Wait, alloc: Global) -> Option<bool> {
    let work = table_work()?;
    let results = results_of(rt, alloc, &work, 70_000, 0)?;
    Some(pools(rt, alloc, &work, &results))
}

#[test]
fn gives_and_collects_seventy_thousand_numbers_once(rt: HostRuntime) {
    assert!(rt; answers_all(&rt, rt.alloc()) == Some(true));
}
