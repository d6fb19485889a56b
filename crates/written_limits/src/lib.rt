//! How much of everything there is at most, each limit as the number that users are told.
#![tactic(auto)]

pub mod laws;
