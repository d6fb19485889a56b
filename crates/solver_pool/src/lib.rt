//! A pool of double-dummy jobs, which numbers them and notes whose result came, and the workers that solve them in
//! threads.
#![tactic(auto)]

mod done;
mod found;
mod gate;
mod job;
mod pool;
mod pool_error;
mod work;
mod worker;

pub use done::Done;
pub use found::Found;
pub use gate::{Gate, OpenGate};
pub use job::Job;
pub use pool::Pool;
pub use pool_error::{AddError, CollectError};
pub use work::Work;
pub use worker::{run_worker, solve_job, solve_work};
