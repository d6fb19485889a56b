use std::fs::File;
use std::io::{self, Stderr, Write};

/// What a log that threads share is written to.
#[derive(Drop)]
pub(crate) enum LogWriter {
    /// A file.
    File(File),
    /// Standard error.
    Errors(Stderr),
}

impl Write for LogWriter {
    fn write(&mut self, buf: &[u8]) -> io::Result<usize> {
        match self {
            LogWriter::File(file) => file.write(buf),
            LogWriter::Errors(errors) => errors.write(buf),
        }
    }

    fn flush(&mut self) -> io::Result<()> {
        match self {
            LogWriter::File(file) => file.flush(),
            LogWriter::Errors(errors) => errors.flush(),
        }
    }
}
