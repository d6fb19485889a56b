ghost use Rattle.std.specs.Prelude.{◌≡◌};
ghost use Rattle.solver_pool.specs.Done.{IsFoundOf};

use crate::found::Found;
use crate::job::Job;
use std::marker::Model;

/// A job, and what was found of it. The type keeps that it is the job's own.
#[derive(Drop)]
pub struct Done {
    job: Job,
    found: Found,
}

impl Model for Done {
    ghost use Rattle.solver_pool.specs.Done.{Finished, finished_code, IsFoundOf};

    ghost Value = { Finished };

    ghost coded = { finished_code };

    ghost view = { λ done. record { job = done.job; found = done.found } };

    ghost invariant = { λ done. IsFoundOf done.job.work done.found };
}

impl Done {
    pub(crate) fn new(job: Job, found: Found) -> Done
        requires own { IsFoundOf job.work found }
        ensures { result ≡ record { job = job; found = found } }
    {
        Done { job, found }
    }

    /// The job.
    pub fn job(&self) -> Job
        ensures { result ≡ self.now.job }
    {
        self.job
    }

    /// What was found of it.
    pub fn found(&self) -> &Found
        ensures found { result.now ≡ self.now.found }
        ensures own { IsFoundOf self.now.job.work self.now.found }
    {
        &self.found
    }
}
