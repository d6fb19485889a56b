//! A stream that asks the system only where something can come of it, and gives no more than a turn's share.

ghost use Rattle.std.specs.Prelude.{◌≡◌};

use std::cell::Cell;
use std::io::{self, ErrorKind, Read, Write};
use std::marker::Model;

// How many bytes are read of a client in one turn, and as many more as one read may give beyond.
const SHARE: usize = 32_768;

/// A stream that doesn't block. Once it has found no more, or no more room, it asks the system no more until it is told that
/// the system is ready again. And once it has given its share in a turn, it says that it would block: tungstenite's `read`
/// returns only at a message or there, so that a client which sends empty fragments for ever would keep a thread.
#[derive(Drop)]
pub struct ReadyStream<S> {
    stream: S,
    // More may have come.
    may_read: Cell<bool>,
    // There may be room.
    may_write: Cell<bool>,
    // The other side has said that it sends no more, or the stream has failed: the end is to be read.
    at_end: Cell<bool>,
    // How many bytes may still be read in this turn.
    left: Cell<usize>,
}

// What is read and written is the stream's own.
impl<S> Model for ReadyStream<S> {
    ghost Value = { S };

    ghost coded = { S.code };

    ghost view = { λ t. t.stream };
}

impl<S> ReadyStream<S> {
    /// A stream that doesn't block, of which nothing is known yet.
    pub fn new(stream: S) -> ReadyStream<S>
        ensures { result ≡ stream }
    {
        ReadyStream {
            stream,
            may_read: Cell::new(true),
            may_write: Cell::new(true),
            at_end: Cell::new(false),
            left: Cell::new(SHARE),
        }
    }

    /// The system has said that it is ready: that bytes have come, that there is room, or that the end has come.
    pub fn wake(&self, reads: bool, writes: bool, ends: bool) {
        if reads || ends {
            self.may_read.set(true);
        }
        if writes || ends {
            self.may_write.set(true);
        }
        if ends {
            self.at_end.set(true);
        }
    }

    /// A turn begins, with a whole share.
    pub fn begin(&self) {
        self.left.set(SHARE);
    }

    /// Whether it said that it would block for the end of its share, and not for want of bytes: then no readiness is told
    /// of it, and it has to go on in the next round.
    pub fn is_hungry(&self) -> bool {
        self.may_read.get() && self.left.get() == 0
    }

    /// The stream.
    pub fn stream(&self) -> &S
        ensures { result.now ≡ self.now }
    {
        &self.stream
    }
}

impl<S: Read> Read for ReadyStream<S> {
    ghost remaining = { λ t. S.remaining t };

    fn read(&mut self, buf: &mut [u8]) -> io::Result<usize> {
        if !self.may_read.get() || self.left.get() == 0 {
            return Err(io::Error::from(ErrorKind::WouldBlock));
        }
        match self.stream.read(buf) {
            Ok(count) => {
                self.left.set(self.left.get().saturating_sub(count));
                // Less than there was room for: all that had come. The end is told by a readiness of its own.
                if count < buf.len() && !self.at_end.get() {
                    self.may_read.set(false);
                }
                Ok(count)
            }
            Err(error) => {
                if error.kind() == ErrorKind::WouldBlock {
                    self.may_read.set(false);
                }
                Err(error)
            }
        }
    }
}

impl<S: Write> Write for ReadyStream<S> {
    ghost contents = { λ t. S.contents t };

    fn write(&mut self, buf: &[u8]) -> io::Result<usize> {
        if !self.may_write.get() {
            return Err(io::Error::from(ErrorKind::WouldBlock));
        }
        match self.stream.write(buf) {
            Ok(count) => {
                if count < buf.len() {
                    self.may_write.set(false);
                }
                Ok(count)
            }
            Err(error) => {
                if error.kind() == ErrorKind::WouldBlock {
                    self.may_write.set(false);
                }
                Err(error)
            }
        }
    }

    fn flush(&mut self) -> io::Result<()> {
        self.stream.flush()
    }
}
