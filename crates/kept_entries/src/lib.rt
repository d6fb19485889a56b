//! Publications of entries as rows of a journal: written, read again, and what the solver found of them solved again.
#![tactic(auto)]

mod comparing;
mod grouping;
pub mod laws;
mod publications;
mod read_fault;
mod reading;
mod solving;
mod writing;

pub use publications::read_publications;
pub use read_fault::RowFault;
pub use writing::row_texts;
