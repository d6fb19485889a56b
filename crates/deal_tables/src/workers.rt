use cards::Deal;
use crossbeam_channel::{Receiver, Sender, unbounded};
use solver_pool::{Done, Found, Job, OpenGate, Work, run_worker};
use solver_results::DdTable;
use std::alloc::{AllocError, Global};
use std::sync::Wait;
use std::thread::{self, Threads};

/// What so many workers in threads find of the deals among these lines, with so many visits each.
pub fn share_deals<R: Threads + Wait + AllocGlobal + Sync>(
    rt: &R,
    lines: &str,
    workers: usize,
    visits: u64,
) -> Result<Vec<Done>, AllocError> {
    let alloc: Global = rt.alloc();
    let (to_workers, jobs) = unbounded::<Job, Global>(alloc)?;
    send_deals(rt, lines, to_workers);
    let results = results_of(rt, alloc, &jobs, workers, visits)?;
    results.iter(rt).collect(alloc)
}

/// The table of a deal, if it is what was found.
pub fn table_in(done: &Done, deal: Deal) -> Option<DdTable> {
    match done.found() {
        Found::Table(table) if table.deal() == deal => Some(*table),
        _ => None,
    }
}

// Sends a job for the table of each deal, all that there will be. One for which there is no memory isn't sent.
fn send_deals(rt: &impl Wait, lines: &str, to_workers: Sender<Job>) {
    let mut number = 0u32;
    for line in lines.lines() {
        if let Ok(deal) = line.parse::<Deal>() {
            number = number.saturating_add(1);
            let work = Work::Table { board: 1, deal };
            let _unsent = to_workers.send(rt, Job { number, work });
        }
    }
}

// What the workers made of the jobs, all that there will be.
fn results_of<R: Threads + Wait + Sync>(
    rt: &R,
    alloc: Global,
    jobs: &Receiver<Job>,
    workers: usize,
    visits: u64,
) -> Result<Receiver<Done>, AllocError> {
    let (from_workers, results) = unbounded::<Done, Global>(alloc)?;
    thread::map_indices(
        rt,
        alloc,
        workers,
        &|_| { run_worker(rt, alloc, &OpenGate, jobs, &from_workers, visits) },
    )?;
    Ok(results)
}
