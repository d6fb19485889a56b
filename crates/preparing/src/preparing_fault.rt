use opened_session::OpeningFault;
use session_opening::OpeningRefusal;
use std::alloc::{AllocError, AllocFailed};
use thiserror::Error;

/// Why nothing is prepared.
#[derive(Clone, Copy, Debug, Error)]
pub enum PreparingFault {
    /// No name to sign in by is left for the person of this line.
    #[error("line {0}: NoFreeName (give the person a name in the column sign_in)")]
    NoFreeName(u64),
    /// The session wouldn't open, because of the person of this line.
    #[error("line {0}: {1}")]
    Person(u64, OpeningRefusal),
    #[error("BadTitle (a title is 1 to 100 bytes of text, with no blank at either end)")]
    BadTitle,
    #[error("BadDate (a date is a day as 2026-11-27)")]
    BadDate,
    /// The session wouldn't open.
    #[error("{0}")]
    Unopened(OpeningFault),
    /// There are fewer tokens than people.
    #[error("FewTokens (each person has a token)")]
    FewTokens,
    #[error("OutOfMemory")]
    OutOfMemory,
}

impl<T: Drop> From<AllocFailed<T>> for PreparingFault {
    fn from(_: AllocFailed<T>) -> PreparingFault {
        PreparingFault::OutOfMemory
    }
}

impl From<AllocError> for PreparingFault {
    fn from(_: AllocError) -> PreparingFault {
        PreparingFault::OutOfMemory
    }
}
