//! A session that is served in threads: each display's thread serves many clients beside one another, workers solve, and what they
//! find is entered beside them.
#![tactic(auto)]

mod serving;

pub use serving::{ServingError, ServingPlan, serve_book};
