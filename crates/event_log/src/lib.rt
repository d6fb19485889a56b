//! A log of what happens while a session is served: who signed in, what became of batches, how connections ended, and what
//! was solved. An event holds names of users, numbers, words of the program's own and durations alone: there is no room in it
//! for a token, a digest, a card, a contract or a result.
#![tactic(auto)]

mod event;
mod event_line;
mod event_log;
pub mod laws;
mod log_files;
mod log_writer;
mod moment;
mod plain_text;
mod shared_log;
mod told_log;
mod words;

pub use event::{AnsweredCommand, BatchFault, Event, Guest};
pub use event_line::log_line;
pub use event_log::{EventLog, LogOutcome};
pub use log_files::LogFiles;
pub use shared_log::SharedLog;
pub use told_log::ToldLog;
