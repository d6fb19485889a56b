use std::fmt;
use thiserror::Error;

/// Why a connection gives no other answer to a message that was read.
#[derive(Clone, Copy, Debug, Error)]
pub enum ConnectionFault {
    /// No user has signed in.
    NotSignedIn,
    /// There is no such user, or the token isn't the user's.
    NotKnown,
    /// No published version could be entered.
    NoEntry,
    /// A batch isn't kept: nothing of it is there, nor will be.
    NotKept,
    /// Whether a batch is kept isn't known: the next start may find all of it or nothing.
    Unsure,
    /// Memory was refused.
    OutOfMemory,
}

/// The variant's name.
impl fmt::Display for ConnectionFault {
    fn fmt<W: fmt::Write>(&self, f: &mut fmt::Formatter<W>) -> fmt::Result {
        fmt::Debug::fmt(self, f)
    }
}
