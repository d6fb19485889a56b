//! Why nothing can listen at a port.

ghost use Rattle.std.specs.Prelude.{◌≡◌};
ghost use Rattle.operator_lines.specs.Faults.{port_fault_text};

use std::io::ErrorKind;

/// Why nothing can listen at a port.
#[derive(Clone, Copy, Debug, PartialEq, Eq)]
pub enum PortFault {
    /// Another program listens there.
    Taken,
    /// The system doesn't allow it, as below 1024.
    Forbidden,
    /// The address is another computer's.
    Elsewhere,
    /// Anything else that the system says.
    Failed,
}

impl PortFault {
    /// What an error of the system comes to.
    pub fn of_kind(kind: ErrorKind) -> PortFault {
        match kind {
            ErrorKind::AddrInUse => PortFault::Taken,
            ErrorKind::PermissionDenied => PortFault::Forbidden,
            ErrorKind::AddrNotAvailable => PortFault::Elsewhere,
            _ => PortFault::Failed,
        }
    }

    // What is told of it.
    pub(crate) fn text(self) -> &'static str
        ensures { result.now ≡ port_fault_text self }
    {
        match self {
            PortFault::Taken => "another program listens there",
            PortFault::Forbidden => "the system doesn't allow it",
            PortFault::Elsewhere => "this computer hasn't that address",
            PortFault::Failed => "the system can't do it",
        }
    }
}
