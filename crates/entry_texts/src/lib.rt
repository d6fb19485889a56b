//! An entry of a session as the two texts of a row, and what such texts tell.
#![tactic(auto)]

mod confirming;
mod kept_entry;
pub mod laws;
mod reading;
mod text_fault;
mod writing;

pub use kept_entry::KeptEntry;
pub use reading::read_entry;
pub use text_fault::TextFault;
pub use writing::{EntryText, entry_text};
