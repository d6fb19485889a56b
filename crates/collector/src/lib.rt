//! What workers found, taken in: the result of a job that was given is entered when it comes for the first time.
#![tactic(auto)]

mod collecting;
mod thread;

pub use collecting::collect;
pub use thread::Collect;
