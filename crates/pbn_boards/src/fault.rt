//! Why the boards of a text aren't written.

use pbn_records::DealsError;
use std::alloc::AllocError;
use std::{fmt, io};

#[derive(Clone, Copy)]
pub enum FileFault {
    /// The text can't be read, or is too long.
    Unreadable,
    /// Its boards can't, or memory ran out.
    Deals(DealsError),
}

impl FileFault {
    /// The status with which the program ends.
    pub fn status(self) -> u8 {
        match self {
            FileFault::Unreadable => 3,
            FileFault::Deals(DealsError::OutOfMemory) => 4,
            FileFault::Deals(_) => 1,
        }
    }
}

impl fmt::Display for FileFault {
    fn fmt<W: fmt::Write>(&self, f: &mut fmt::Formatter<W>) -> fmt::Result {
        match self {
            FileFault::Unreadable => write!(f, "can't be read"),
            FileFault::Deals(error) => write!(f, "{error}"),
        }
    }
}

impl From<AllocError> for FileFault {
    fn from(_refused: AllocError) -> FileFault {
        FileFault::Deals(DealsError::OutOfMemory)
    }
}

impl From<io::Error> for FileFault {
    fn from(error: io::Error) -> FileFault {
        match error.kind() {
            io::ErrorKind::OutOfMemory => FileFault::Deals(DealsError::OutOfMemory),
            _ => FileFault::Unreadable,
        }
    }
}
