//! A session's journal in a SQLite file as a store of entries: opened at a start, added to as entries are published.
#![tactic(auto)]

mod found_journal;
mod journal_fault;
pub mod laws;
mod opening;
mod row_journal;

pub use found_journal::{FoundJournal, OpenedJournal};
pub use journal_fault::{JournalFault, fault_of_file, fault_of_rows};
pub use opening::{open_kept_journal, open_row_journal};
pub use row_journal::RowJournal;
