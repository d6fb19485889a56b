use std::fmt;
use thiserror::Error;

/// Why a request has no answer.
#[derive(Clone, Copy, Debug, Error)]
pub enum AnswerFault {
    /// To a query: no version could be entered.
    NoEntry,
    /// To a batch: it isn't kept. Nothing of it is there, nor will be.
    NotKept,
    /// To a batch: whether it is kept isn't known. The next start may find all of it or nothing.
    Unsure,
    /// Memory was refused.
    OutOfMemory,
}

/// The variant's name.
impl fmt::Display for AnswerFault {
    fn fmt<W: fmt::Write>(&self, f: &mut fmt::Formatter<W>) -> fmt::Result {
        fmt::Debug::fmt(self, f)
    }
}
