//! Which boards a filter keeps: conditions on a board's marks, its shown results and its double-dummy table.
#![tactic(auto)]

mod atom;
mod board_facts;
mod bounds;
mod condition;
mod filter;
mod holds;
pub mod laws;
mod limits;
mod trick_table;

pub use atom::Atom;
pub use board_facts::BoardFacts;
pub use bounds::{Bounds, ScoreBounds};
pub use condition::Condition;
pub use filter::Filter;
pub use trick_table::{StrainTricks, TrickTable};
