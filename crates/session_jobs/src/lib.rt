//! The jobs of a session: what is left to solve, on its way to the workers, and what the workers do.
#![tactic(auto)]

mod job_queue;
mod tasks;
mod work;

pub use job_queue::JobQueue;
pub use tasks::{CloseQueue, Solve, workers_of};
pub use work::work_of;
