use std::fmt;
use thiserror::Error;

/// Why no more work is taken.
#[derive(Clone, Copy, Debug, PartialEq, Eq, Error)]
pub enum AddError {
    PoolFull,
    OutOfMemory,
}

impl fmt::Display for AddError {
    fn fmt<W: fmt::Write>(&self, f: &mut fmt::Formatter<W>) -> fmt::Result {
        f.write_str(match self {
            AddError::PoolFull => "70000 jobs were given",
            AddError::OutOfMemory => "out of memory",
        })
    }
}

/// Why a result is not collected.
#[derive(Clone, Copy, Debug, PartialEq, Eq, Error)]
pub enum CollectError {
    /// No job of this number was given.
    Stranger,
    /// The result of this job was collected before.
    Double,
}

impl fmt::Display for CollectError {
    fn fmt<W: fmt::Write>(&self, f: &mut fmt::Formatter<W>) -> fmt::Result {
        f.write_str(match self {
            CollectError::Stranger => "no job has this number",
            CollectError::Double => "this job's result was collected before",
        })
    }
}
