//! Logs, as a runtime opens them.

use crate::log_writer::LogWriter;
use crate::shared_log::SharedLog;
use std::alloc::Global;
use std::fs::OpenOptions;
use std::io;
use std::os::unix::fs::OpenOptionsExt;
use std::rt::{Files, HostRuntime};

// Who may read and write a log that is made: the user alone whom the program runs as.
const OWNER_ALONE: u32 = 0o600;

/// What opens logs, so that code over any runtime may.
pub trait LogFiles {
    /// The log of this name: `-` is standard error, and any other is the path of a file, which is made where there is none, and
    /// keeps what it has.
    fn open_log(&self, alloc: Global, name: &str) -> io::Result<SharedLog>;
}

impl LogFiles for HostRuntime {
    fn open_log(&self, alloc: Global, name: &str) -> io::Result<SharedLog> {
        let writer = match name {
            "-" => LogWriter::Errors(self.stderr()),
            path => LogWriter::File(open_behind(self, path)?),
        };
        Ok(SharedLog::new(alloc, writer, self.stderr()))
    }
}

// The file at a path, to which bytes are added.
fn open_behind<R: Files>(rt: &R, path: &str) -> io::Result<R::File> {
    OpenOptions::new()
        .append(true)
        .create(true)
        .mode(OWNER_ALONE)
        .open(rt, path)
}
