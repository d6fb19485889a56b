//! What a user's request is answered: one text, over any keeper of the session, whoever sent it and however it came.
#![tactic(auto)]

mod answer_fault;
mod answering;
pub mod laws;

pub use answer_fault::AnswerFault;
pub use answering::{answer_audit, answer_batch, answer_query, answer_request};
