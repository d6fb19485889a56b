//! The book of a session: the commands that were accepted, in their order, and the state that they lead to.
#![tactic(auto)]

mod answer;
mod audit;
mod board_sight;
mod book;
mod exposure;
pub mod laws;
mod submission;

pub use answer::Answer;
pub use audit::{AuditError, AuditRow, AuditRows};
pub use book::{Book, is_stopped};
pub use submission::Submission;
