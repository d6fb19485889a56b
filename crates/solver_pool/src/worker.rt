ghost use Rattle.std.specs.Prelude.{◌≡◌, ◌≤◌};
ghost use Rattle.solver_pool.specs.Done.{IsFoundOf};
ghost use Rattle.solver_pool.specs.declared.found.Found.TheVariants.{OutOfBudget, OutOfMemory};

use crate::done::Done;
use crate::found::Found;
use crate::gate::Gate;
use crate::job::Job;
use crate::work::Work;
use crossbeam_channel::{Receiver, SendError, Sender};
use double_dummy::{Budget, SolveError, play_costs, table};
use std::alloc::{Allocator, Global};
use std::sync::Wait;

/// Solves the jobs that come, each with so many visits, until no more can come or nobody is left to hear of them. A
/// result for which the channel finds no memory is dropped.
pub fn run_worker<A: Allocator>(
    rt: &impl Wait,
    alloc: Global,
    gate: &impl Gate,
    jobs: &Receiver<Job>,
    results: &Sender<Done, A>,
    budget: u64,
) {
    for _ in rt.forever() {
        let Ok(job) = jobs.recv(rt) else {
            break;
        };
        let number = job.number;
        gate.pass(number);
        let done = solve_job(alloc, job, budget);
        gate.done(number);
        if let Err(SendError::Disconnected(_)) = results.send(rt, done) {
            break;
        }
    }
}

/// What is found of a job with so many visits.
pub fn solve_job(alloc: Global, job: Job, budget: u64) -> Done
    ensures { result.job ≡ job }
{
    let found = solve_work(alloc, job.work, &mut Budget::new(budget));
    Done::new(job, found)
}

/// What is found of work within a budget. Where that is nothing, either its visits are spent, or there was no memory
/// before the first of them.
pub fn solve_work(alloc: Global, work: Work, budget: &mut Budget) -> Found
    ensures own { IsFoundOf work result }
    ensures spent { budget.new ≤ budget.old }
    ensures out_of_budget { result ≡ OutOfBudget → budget.new ≡ 0 }
    ensures out_of_memory { result ≡ OutOfMemory → budget.new ≡ budget.old }
{
    match work {
        Work::Table { deal, .. } => match table(alloc, deal, budget) {
            Ok(table) => Found::Table(table),
            Err(SolveError::OutOfBudget) => Found::OutOfBudget,
            Err(SolveError::OutOfMemory) => Found::OutOfMemory,
        },
        Work::Costs {
            deal,
            contract,
            play,
            ..
        } => match play_costs(alloc, deal, contract, &play, budget) {
            Ok(costs) => Found::Costs(costs),
            Err(SolveError::OutOfBudget) => Found::OutOfBudget,
            Err(SolveError::OutOfMemory) => Found::OutOfMemory,
        },
    }
}
