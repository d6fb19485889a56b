//! The commands of the desk, read from JSON.
#![tactic(auto)]

mod command;
mod commands;
mod play;
mod result;

pub use command::{command_of, commands_in, has_unknown};
pub use commands::Commands;
pub use play::read_play;
pub use result::{doubling_of, level_of};
