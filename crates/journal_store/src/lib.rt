//! A session's journal in a SQLite file: a row for each entry, added as whole publications, and read back over a crash.
#![tactic(auto)]

mod append_rows;
mod closing;
mod creating;
mod journal_files;
mod kept;
pub mod laws;
mod opening;
mod reading;
mod row_text;
mod session_text;
mod tables;
mod take_fault;
mod taking;

pub use append_rows::{AppendFault, append};
pub use closing::close_journal;
pub use creating::create;
pub use journal_files::JournalFiles;
pub use kept::{open_kept, read_kept};
pub use opening::open_journal;
pub use reading::MOST_ROWS;
pub use row_text::RowText;
pub use session_text::SessionText;
pub use tables::{is_blank_schema, is_journal};
pub use take_fault::TakeFault;
pub use taking::take_up;
