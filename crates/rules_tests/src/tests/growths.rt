//! Calls that take memory, as they are under every memory: run alone, with each request refused in turn
//! (`tests/refuse_growths.py`), each of these passes.

use super::pool::table_work;
use scoring::matchpoints;
use solver_pool::{AddError, Pool, Work};
use std::alloc::Global;

/// How many jobs are asked for: a pool has room for some of them when it is made, and grows twice.
const JOBS: u32 = 400;

/// Whether a new pool numbers its jobs on from 1, and leaves no number out where there was no room for one.
fn numbers_on(alloc: Global, work: &Work) -> bool {
    let Ok(mut pool) = Pool::new(alloc) else {
        return true;
    };
    let mut given = 0_u32;
    for _ in 0..JOBS {
        match pool.add(*work) {
            Ok(job) if given < JOBS && job.number == given + 1 => given = job.number,
            Err(AddError::OutOfMemory) => {}
            _ => return false,
        }
    }
    // One request is refused, so that all jobs but one find room.
    given >= JOBS - 1
}

/// A hundred scores, of which every two are the same: more than a section has tables.
fn scores(alloc: Global) -> Option<Vec<i32>> {
    let mut scores = Vec::with_capacity(alloc, 100).ok()?;
    for place in 0..100 {
        scores.push(place / 2).ok()?;
    }
    Some(scores)
}

/// Whether the pairs of scores earn 1, 5, 9 units and so on, where there is memory.
fn earn(alloc: Global) -> bool {
    let Some(scores) = scores(alloc) else {
        return true;
    };
    if scores.len() > 100 {
        return false;
    }
    let Ok(earned) = matchpoints(alloc, &scores) else {
        return true;
    };
    for (place, units) in earned.iter().enumerate() {
        if *units as usize != place / 2 * 4 + 1 {
            return false;
        }
    }
    earned.len() == 100
}

#[test]
fn jobs_are_numbered_on_under_every_memory(rt: HostRuntime) {
    let Some(work) = table_work() else {
        assert!(rt; false);
        return;
    };
    assert!(rt; numbers_on(rt.alloc(), &work));
}

#[test]
fn a_hundred_scores_earn_the_same_under_every_memory(rt: HostRuntime) {
    assert!(rt; earn(rt.alloc()));
}
