use std::fmt;
use thiserror::Error;

/// Why a batch has no receipt.
#[derive(Clone, Copy, Debug, Error)]
pub enum SubmitFault {
    /// Memory was refused.
    OutOfMemory,
    /// It isn't kept: nothing of it is there, nor will be.
    NotKept,
    /// Whether it is kept isn't known: it isn't in this run, and the next start may find all of it or nothing.
    Unsure,
}

/// The variant's name.
impl fmt::Display for SubmitFault {
    fn fmt<W: fmt::Write>(&self, f: &mut fmt::Formatter<W>) -> fmt::Result {
        fmt::Debug::fmt(self, f)
    }
}
