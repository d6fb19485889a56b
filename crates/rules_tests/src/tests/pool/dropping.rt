//! A worker whose channel has no room for one of its results: that one is dropped, and the worker goes on.

use super::{send_jobs, table_work};
use crossbeam_channel::{Receiver, SendError, Sender, unbounded};
use linked_list_allocator::LocalHeap;
use solver_pool::{Done, Gate, Job, Work, run_worker, solve_job};
use std::alloc::Global;
use std::sync::Wait;
use std::sync::atomic::{AtomicU32, Ordering};

/// The ends of a channel that has so much memory, and no more.
type Narrow<'h> = (Sender<Done, &'h LocalHeap>, Receiver<Done, &'h LocalHeap>);

/// A gate that takes a result off the channel before job 3, and counts the jobs that it hears of.
#[derive(Drop)]
struct MakesRoom<'a, 'h, R: Wait> {
    rt: &'a R,
    results: &'a Receiver<Done, &'h LocalHeap>,
    told: AtomicU32,
}

impl<R: Wait> Gate for MakesRoom<'_, '_, R> {
    fn pass(&self, job: u32) {
        if job == 3 {
            let _taken = self.results.try_recv(self.rt);
        }
    }

    fn done(&self, _job: u32) {
        self.told.fetch_add(1, Ordering::SeqCst);
    }
}

/// Sends results of other jobs until there is no room for one more.
fn fill(rt: &impl Wait, alloc: Global, results: &Sender<Done, &LocalHeap>, work: &Work) -> bool {
    for number in 101..10_101 {
        let work = *work;
        let done = solve_job(alloc, Job { number, work }, 0);
        if let Err(SendError::OutOfMemory(_)) = results.send(rt, done) {
            return true;
        }
    }
    false
}

/// The numbers of the last two results in a channel.
fn last_two(rt: &impl Wait, results: &Receiver<Done, &LocalHeap>) -> (u32, u32) {
    let mut last = (0, 0);
    for _ in 0..10_000 {
        match results.try_recv(rt) {
            Ok(done) => last = (last.1, done.job().number),
            Err(_) => break,
        }
    }
    last
}

/// Whether a worker with three jobs sends the results of the first and the third, where there is room for one before it
/// begins, and for one more before the third.
fn drops_the_second(rt: &impl Wait, alloc: Global, channel: &Narrow<'_>) -> Option<bool> {
    let (from_worker, results) = channel;
    let work = table_work()?;
    let Ok((to_worker, jobs)) = unbounded(alloc) else {
        return None;
    };
    send_jobs(rt, to_worker, &work, 3);
    if !fill(rt, alloc, from_worker, &work) {
        return None;
    }
    let _taken = results.try_recv(rt);
    let gate = MakesRoom {
        rt,
        results,
        told: AtomicU32::new(0),
    };
    run_worker(rt, alloc, &gate, &jobs, from_worker, 0);
    let told = gate.told.load(Ordering::SeqCst);
    Some(told == 3 && last_two(rt, results) == (1, 3))
}

#[test]
fn a_result_without_room_is_dropped_and_the_next_is_sent(rt: HostRuntime) {
    let alloc = rt.alloc();
    let Ok(heap) = LocalHeap::new(alloc, 100_000) else {
        assert!(rt; false);
        return;
    };
    let Ok(channel) = unbounded(&heap) else {
        assert!(rt; false);
        return;
    };
    assert!(rt; drops_the_second(&rt, alloc, &channel) == Some(true));
}
