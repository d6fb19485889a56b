ghost use Rattle.std.specs.Prelude.{◌≡◌};
ghost use Rattle.json_fields.specs.declared.request_fault.RequestFault.TheVariants.{OutOfMemory};

use std::alloc::AllocFailed;
use std::fmt;
use thiserror::Error;

/// Why no message was read. Of the first four the first that applies is given.
#[derive(Clone, Copy, Debug, PartialEq, Eq, Error)]
pub enum RequestFault {
    /// It has too many bytes.
    TooLong,
    /// The text is no JSON object.
    Malformed,
    /// It isn't one query, batch of commands, audit or greeting, or some word in it names none.
    UnknownRequest,
    /// A member is missing, isn't listed, or hasn't the type or the range that it should.
    BadField,
    /// Memory was refused.
    OutOfMemory,
}

/// The variant's name.
impl fmt::Display for RequestFault {
    fn fmt<W: fmt::Write>(&self, f: &mut fmt::Formatter<W>) -> fmt::Result {
        fmt::Debug::fmt(self, f)
    }
}

impl<T: Drop> From<AllocFailed<T>> for RequestFault {
    ghost from_gives = { λ _ fault. fault ≡ OutOfMemory };

    fn from(_refused: AllocFailed<T>) -> RequestFault {
        RequestFault::OutOfMemory
    }
}
