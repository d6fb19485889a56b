use opened_session::OpeningFault;
use operator_lines::FileFault;
use row_journal::JournalFault;
use std::fmt;
use thiserror::Error;

/// One of a session's two files.
#[derive(Clone, Copy, Debug, PartialEq, Eq)]
pub enum SessionFile {
    /// The session object's.
    Object,
    /// The boards'.
    Boards,
}

/// Why a session isn't opened from its files, or its journal isn't told or copied.
#[derive(Clone, Copy, Debug, Error)]
pub enum KeptSessionFault {
    /// There is no memory.
    OutOfMemory,
    /// This file of the session isn't read.
    Unread(SessionFile, FileFault),
    /// The texts open no session.
    Unopened(OpeningFault),
    /// The journal isn't opened.
    Journal(JournalFault),
    /// There is nothing at the journal's path, or less than a page of a database. Nothing was opened.
    NoJournal,
    /// The entry of this number, from 1, isn't accepted where it stands in the journal.
    NotAccepted(u32),
    /// There is something at the path of the copy.
    CopyExists,
    /// The copy can't be written. What was written of it stays.
    CopyUnwritten,
}

/// Faults of the texts and of the journal are called as their crates call them, and no journal as what is none.
impl fmt::Display for KeptSessionFault {
    fn fmt<W: fmt::Write>(&self, f: &mut fmt::Formatter<W>) -> fmt::Result {
        match self {
            KeptSessionFault::OutOfMemory => f.write_str("out of memory"),
            KeptSessionFault::Unread(_, _) => f.write_str("a file can't be read"),
            KeptSessionFault::Unopened(fault) => write!(f, "{fault}"),
            KeptSessionFault::Journal(fault) => write!(f, "{fault}"),
            KeptSessionFault::NoJournal => f.write_str("NotAJournal"),
            KeptSessionFault::NotAccepted(number) => write!(f, "NotAccepted({number})"),
            KeptSessionFault::CopyExists => f.write_str("CopyExists"),
            KeptSessionFault::CopyUnwritten => f.write_str("CopyUnwritten"),
        }
    }
}
