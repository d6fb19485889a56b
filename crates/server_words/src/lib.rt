//! The words that the results server's program is called with, and how it ends where nothing is run by them.
#![tactic(auto)]

mod called;
mod command_line;
pub mod laws;
mod options_named;
mod reading;
mod statuses;
mod version;
mod words;

pub use called::called_with;
pub use reading::read_words;
pub use statuses::status_of_words;
pub use version::VERSION;
pub use words::{
    CLIENTS_AT_MOST, Checking, DISPLAYS_AT_MOST, JournalCopy, Preparing, ReportForm, Reporting,
    Serving, SessionFiles, SessionSource, Words,
};
