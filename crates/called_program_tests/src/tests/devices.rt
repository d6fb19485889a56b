//! Readers and writers that fail, or look at one another.

use std::alloc::Global;
use std::cell::Cell;
use std::io::{self, ErrorKind, Read, Write};

/// A writer that fails once so, where it has no more room, and then goes on.
#[derive(Drop)]
pub(super) struct FailingWriter {
    pub(super) held: Vec<u8>,
    room: usize,
    fault: ErrorKind,
}

impl FailingWriter {
    pub(super) fn new(alloc: Global, room: usize, fault: ErrorKind) -> FailingWriter {
        FailingWriter {
            held: Vec::new(alloc),
            room,
            fault,
        }
    }
}

impl Write for FailingWriter {
    fn write(&mut self, buf: &[u8]) -> io::Result<usize> {
        if self.room == 0 {
            self.room = usize::MAX;
            return Err(io::Error::from(self.fault));
        }
        let count = buf.len().min(self.room);
        self.room = self.room.saturating_sub(count);
        self.held.write(&buf[..count])
    }

    fn flush(&mut self) -> io::Result<()> {
        Ok(())
    }
}

/// How many of these bytes end a line.
pub(super) fn line_feeds(bytes: &[u8]) -> usize {
    let mut count: usize = 0;
    for byte in bytes {
        if *byte == b'\n' {
            count = count.saturating_add(1);
        }
    }
    count
}

/// A writer that keeps lines back until it is flushed, and then has room for so many in all: where there are more, that
/// flush fails, and another would not. It tells how many have arrived.
#[derive(Drop)]
pub(super) struct Holding<'c> {
    pub(super) held: usize,
    pub(super) room: usize,
    pub(super) arrived: &'c Cell<usize>,
}

impl Write for Holding<'_> {
    fn write(&mut self, buf: &[u8]) -> io::Result<usize> {
        self.held = self.held.saturating_add(line_feeds(buf));
        Ok(buf.len())
    }

    fn flush(&mut self) -> io::Result<()> {
        self.arrived.set(self.held.min(self.room));
        if self.held > self.room {
            self.room = usize::MAX;
            return Err(io::Error::from(ErrorKind::Interrupted));
        }
        Ok(())
    }
}

/// A reader of a script that fails where it is asked for more before a line has arrived for each that was read after
/// the first.
#[derive(Drop)]
pub(super) struct Waiting<'s> {
    pub(super) script: &'s [u8],
    pub(super) read: usize,
    pub(super) arrived: &'s Cell<usize>,
}

impl Read for Waiting<'_> {
    fn read(&mut self, buf: &mut [u8]) -> io::Result<usize> {
        if self.arrived.get() != self.read.saturating_sub(1) {
            return Err(io::Error::from(ErrorKind::TimedOut));
        }
        let (Some((byte, rest)), Some(place)) = (self.script.split_first(), buf.first_mut()) else {
            return Ok(0);
        };
        *place = *byte;
        self.script = rest;
        self.read = self.read.saturating_add(line_feeds(&[*byte]));
        Ok(1)
    }
}
