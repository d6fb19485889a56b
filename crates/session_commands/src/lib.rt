//! The commands of a session: what scorers, directors and the solver give, why one is refused, and what is known of a
//! cell.
#![tactic(auto)]

mod actor;
mod cell_state;
mod command;
mod command_row;
mod command_word;
mod entry;
mod refusal;
pub mod room;
mod taken;
mod target;
mod touched;

pub use actor::Actor;
pub use cell_state::CellState;
pub use command::Command;
pub use command_row::CommandRow;
pub use command_word::CommandWord;
pub use entry::Entry;
pub use refusal::Refusal;
pub use taken::Taken;
pub use target::Target;
pub use touched::Touched;
