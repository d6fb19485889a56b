//! A reader that fails once.

use std::io;
use std::io::{ErrorKind, Read};

/// A reader of these bytes that fails once so, after so many of them, and then goes on.
#[derive(Drop)]
pub struct FailingReader<'b> {
    pub bytes: &'b [u8],
    pub good: usize,
    pub fault: ErrorKind,
}

impl Read for FailingReader<'_> {
    fn read(&mut self, buf: &mut [u8]) -> io::Result<usize> {
        if self.good == 0 {
            self.good = usize::MAX;
            return Err(io::Error::from(self.fault));
        }
        let count = buf.len().min(self.good);
        self.good = self.good.saturating_sub(count);
        self.bytes.read(&mut buf[..count])
    }
}
