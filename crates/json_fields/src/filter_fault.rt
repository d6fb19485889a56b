ghost use Rattle.std.specs.Prelude.{◌≡◌};
ghost use Rattle.json_fields.specs.declared.filter_fault.FilterFault.TheVariants.{OutOfMemory};

use std::alloc::AllocFailed;
use std::fmt;
use thiserror::Error;

/// Why no filter was read. The first that applies is given.
#[derive(Clone, Copy, Debug, PartialEq, Eq, Error)]
pub enum FilterFault {
    /// The value is no filter, or it is too large.
    BadField,
    /// Memory was refused.
    OutOfMemory,
}

/// The variant's name.
impl fmt::Display for FilterFault {
    fn fmt<W: fmt::Write>(&self, f: &mut fmt::Formatter<W>) -> fmt::Result {
        fmt::Debug::fmt(self, f)
    }
}

impl<T: Drop> From<AllocFailed<T>> for FilterFault {
    ghost from_gives = { λ _ fault. fault ≡ OutOfMemory };

    fn from(_refused: AllocFailed<T>) -> FilterFault {
        FilterFault::OutOfMemory
    }
}
