ghost use Rattle.std.specs.Prelude.{◌≡◌};
ghost use Rattle.json_reading.specs.declared.json_fault.JsonFault.TheVariants.{OutOfMemory};

use std::alloc::AllocFailed;
use std::fmt;
use thiserror::Error;

/// Why no value was read.
#[derive(Clone, Copy, Debug, PartialEq, Eq, Error)]
pub enum JsonFault {
    /// The text is no JSON, or nests deeper than 127, or a number in it is too large for a float.
    Malformed,
    /// Memory was refused.
    OutOfMemory,
}

/// The variant's name.
impl fmt::Display for JsonFault {
    fn fmt<W: fmt::Write>(&self, f: &mut fmt::Formatter<W>) -> fmt::Result {
        fmt::Debug::fmt(self, f)
    }
}

impl<T: Drop> From<AllocFailed<T>> for JsonFault {
    ghost from_gives = { λ _ fault. fault ≡ OutOfMemory };

    fn from(_refused: AllocFailed<T>) -> JsonFault {
        JsonFault::OutOfMemory
    }
}
