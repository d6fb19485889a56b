//! The history of a session's publications, each the list of its entries, and beginnings of it. A beginning costs no more
//! than a number, can be copied, and of two of one history the shorter begins the longer: so what two threads know of one
//! session can be compared without asking anybody.
#![tactic(auto)]

mod history;
mod rule;

pub use history::{Head, History, HistoryPrefix};
