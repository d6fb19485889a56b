//! The plain Mitchell movement of one section: which table plays which set in which round, and who sits there.
#![tactic(auto)]

mod arithmetic;
mod mitchell;
mod movement_error;

pub use mitchell::Mitchell;
pub use movement_error::MovementError;
