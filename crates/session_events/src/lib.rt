//! What a log hears of a session while it is served: what became of each batch, and what was found of each job.
#![tactic(auto)]

mod hearing;

pub use hearing::{hear_batch, hear_found};
