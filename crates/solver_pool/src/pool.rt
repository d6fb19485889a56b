ghost use Rattle.std.specs.Prelude.{◌≡◌, ◌+◌, ◌-◌, ◌↔◌, ◌++◌, ◌∷◌, [], true, false, None, Some, Ok, Err, IfOk, OnOk, OnErr, length};
ghost use Rattle.solver_pool.specs.Collected.{is_collected, with_collected};
ghost use Rattle.solver_pool.specs.declared.pool.TheConstants.Pool.{MOST_JOBS};
ghost use Rattle.solver_pool.specs.declared.pool_error.AddError.TheVariants.{PoolFull};
ghost use Rattle.solver_pool.specs.declared.pool_error.CollectError.TheVariants.{Stranger, Double};

use crate::done::Done;
use crate::job::Job;
use crate::pool_error::{AddError, CollectError};
use crate::work::Work;
use movement::Movement;
use std::alloc::{AllocError, Global};
use std::marker::Model;

/// The jobs that were given out, and whose result was collected. Clauses see, for each job in order, whether its result
/// was. A job goes by its number alone: the pool doesn't keep the work.
#[derive(Drop)]
pub struct Pool {
    collected: Vec<bool>,
}

impl Model for Pool {
    ghost use Rattle.std.specs.Prelude.{Bool, List, ◌≤◌, length};
    ghost use Rattle.solver_pool.specs.declared.pool.TheConstants.Pool.{MOST_JOBS};

    ghost Value = { List Bool };

    ghost view = { λ pool. pool.collected.items };

    ghost invariant = { λ pool. length pool.collected.items ≤ MOST_JOBS };
}

impl Pool {
    /// How many jobs a pool gives out at most.
    pub const MOST_JOBS: usize = 70_000;

    /// No jobs, and room for those of a session's boards.
    pub fn new(alloc: Global) -> Result<Pool, AllocError>
        ensures { IfOk result (λ pool. pool ≡ []) }
    {
        // As many tables are asked for when a session begins.
        let collected = Vec::with_capacity(alloc, Movement::MOST_BOARDS as usize)?;
        Ok(Pool { collected })
    }

    /// Gives the work the next number, from 1, and makes the room to collect its result.
    pub fn add(&mut self, work: Work) -> Result<Job, AddError>
        ensures job { IfOk result (λ job. job ≡ record { number = length self.old + 1; work = work }) }
        ensures given { OnOk result (self.new ≡ self.old ++ false ∷ []) }
        ensures pool_full { (result ≡ Err PoolFull) ↔ (length self.old ≡ MOST_JOBS) }
        ensures unchanged { OnErr result (self.new ≡ self.old) }
    {
        if self.collected.len() == Pool::MOST_JOBS {
            return Err(AddError::PoolFull);
        }
        let Ok(()) = self.collected.push(false) else {
            return Err(AddError::OutOfMemory);
        };
        Ok(Job {
            number: self.collected.len() as u32,
            work,
        })
    }

    /// Notes that a result came, if its job was given and no result of it came before.
    pub fn collect(&mut self, done: &Done) -> Result<(), CollectError>
        ensures collected { OnOk result (is_collected self.old done.now.job.number ≡ Some false) }
        ensures noted { OnOk result (self.new ≡ with_collected self.old done.now.job.number) }
        ensures stranger { (result ≡ Err Stranger) ↔ (is_collected self.old done.now.job.number ≡ None) }
        ensures double { (result ≡ Err Double) ↔ (is_collected self.old done.now.job.number ≡ Some true) }
        ensures unchanged { OnErr result (self.new ≡ self.old) }
    {
        let Some(before) = done.job().number.checked_sub(1) else {
            return Err(CollectError::Stranger);
        };
        let Some(collected) = self.collected.get_mut(before as usize) else {
            return Err(CollectError::Stranger);
        };
        if *collected {
            return Err(CollectError::Double);
        }
        *collected = true;
        Ok(())
    }
}
