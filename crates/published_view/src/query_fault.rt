use std::fmt;
use thiserror::Error;

/// Why a query has no reply.
#[derive(Clone, Copy, Debug, Error)]
pub enum QueryFault {
    /// No version could be entered.
    NoEntry,
    /// Memory was refused.
    OutOfMemory,
}

/// The variant's name.
impl fmt::Display for QueryFault {
    fn fmt<W: fmt::Write>(&self, f: &mut fmt::Formatter<W>) -> fmt::Result {
        fmt::Debug::fmt(self, f)
    }
}

/// No version could be entered.
#[derive(Clone, Copy, Debug, Error)]
#[error("NoEntry")]
pub struct NoEntry;
