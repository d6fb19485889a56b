ghost use Rattle.std.specs.Prelude.{◌≡◌};
ghost use Rattle.opened_session.specs.Opened.{is_want_of_memory};

use session_object::SessionFault;
use session_opening::OpeningRefusal;
use std::fmt;
use thiserror::Error;

/// Why no session is opened. Want of memory is the last fault of an object, and the last cause not to open its session.
#[derive(Clone, Copy, Debug, Error)]
pub enum OpeningFault {
    /// The text isn't read as a session object.
    Session(SessionFault),
    /// The session of the object isn't opened.
    Opening(OpeningRefusal),
}

impl OpeningFault {
    /// Whether it is want of memory, for the object or for its session.
    pub fn is_out_of_memory(self) -> bool
        ensures { result ≡ is_want_of_memory self }
    {
        matches!(
            self,
            OpeningFault::Session(SessionFault::OutOfMemory)
                | OpeningFault::Opening(OpeningRefusal::OutOfMemory)
        )
    }
}

/// A fault of the object, and a cause not to open its session, are called as their crates call them.
impl fmt::Display for OpeningFault {
    fn fmt<W: fmt::Write>(&self, f: &mut fmt::Formatter<W>) -> fmt::Result {
        match self {
            OpeningFault::Session(fault) => write!(f, "{fault}"),
            OpeningFault::Opening(cause) => write!(f, "{cause}"),
        }
    }
}
