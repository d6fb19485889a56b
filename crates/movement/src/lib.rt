//! The movement of one section, as a list of rows: which table plays which boards in which round, and who sits there.
#![tactic(auto)]

mod cell;
pub mod laws;
mod limits;
mod list_error;
mod misplaced_row;
mod movement;
mod movement_fault;
mod pairs;
mod refusal;
mod row;
mod sitting;
mod sittings;
mod sound;

pub use cell::Cell;
pub use limits::Limits;
pub use list_error::ListError;
pub use misplaced_row::MisplacedRow;
pub use mitchell::MovementError;
pub use movement::Movement;
pub use movement_fault::MovementFault;
pub use row::Row;
pub use sound::first_misplaced;
