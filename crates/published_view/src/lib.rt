//! The replies to queries: what a user is told of a state is read from what the policy lets that user see of it, and
//! nothing else is.
#![tactic(auto)]

mod afresh;
mod answers_of_classes;
mod answers_of_state;
mod before_answer;
pub mod laws;
mod listing;
mod query_fault;
mod shown_state;
mod view;

pub use afresh::answer_afresh;
pub use query_fault::{NoEntry, QueryFault};
pub use view::View;
