//! A log that threads share.

use crate::event::Event;
use crate::log_writer::LogWriter;
use crate::told_log::ToldLog;
use std::alloc::Global;
use std::io::Stderr;
use std::sync::{Mutex, Wait};
use std::time::{Clock, SystemTime};

/// A log that threads share. Each line is written whole before the next one begins, and each has the time at which it was
/// written.
#[derive(Drop)]
pub struct SharedLog {
    alloc: Global,
    log: Mutex<ToldLog<LogWriter, Stderr>>,
}

impl SharedLog {
    pub(crate) fn new(alloc: Global, writer: LogWriter, errors: Stderr) -> SharedLog {
        SharedLog {
            alloc,
            log: Mutex::new(ToldLog::new(writer, errors)),
        }
    }

    /// Hears an event. Nothing comes of it but a line in the log, or what is told where that can't be written.
    pub fn hear<R: Wait + Clock>(&self, rt: &R, event: &Event<'_>) {
        let mut log = self.log.lock(rt);
        log.add(self.alloc, seconds_now(rt), event);
    }
}

// How many seconds ago 1970 began, where the clock can be read.
fn seconds_now<R: Clock>(rt: &R) -> Option<u64> {
    match SystemTime::now(rt) {
        Ok(now) => match now.duration_since(SystemTime::UNIX_EPOCH) {
            Ok(since) => Some(since.as_secs()),
            Err(_) => None,
        },
        Err(_) => None,
    }
}
