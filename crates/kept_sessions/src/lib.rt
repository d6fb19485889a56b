//! A session from its files: opened by two texts or from its journal, and a journal told and copied.
#![tactic(auto)]

mod auditing;
mod closed_journal;
mod copying;
mod journal_session;
pub mod laws;
mod left_files;
mod memberships;
mod paths;
mod reporting;
mod source_fault;
mod source_texts;
mod texts_session;

pub use auditing::{ToldJournal, audit_of_journal, audit_of_publications};
pub use copying::copy_journal;
pub use journal_session::{
    KeptSession, kept_session, kept_session_of_files, kept_session_of_texts,
};
pub use left_files::left_of_journal;
pub use paths::{session_of_files, texts_of_files};
pub use reporting::{ReportedJournal, report_of_journal};
pub use source_fault::{KeptSessionFault, SessionFile};
pub use source_texts::{MOST_FILE_BYTES, SourceTexts, read_texts};
pub use texts_session::session_of_texts;
