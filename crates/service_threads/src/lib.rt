//! The threads of a service that ends by itself: some serve until they have served enough, workers do what is to be done
//! beside them, and one takes in what the workers find. What ends whom is left to the channels that they hold: a worker
//! ends when no more can come to it, and the one that takes in when no worker is left.
#![tactic(auto)]

mod running;
mod task;
#[cfg(test)]
mod tests;

pub use running::run_tasks;
pub use task::Task;
