//! The JSON of each command: of a user's as a client sends it, so that it is read again as it was, and of what the
//! solver found.
#![tactic(auto)]

mod command;
mod found;
pub mod laws;
mod play;
mod result;

pub use command::command_value;
