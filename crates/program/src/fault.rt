use session_object::SessionFault;
use session_opening::OpeningRefusal;
use std::fmt;
use thiserror::Error;

/// Why a script's run ended before the script did.
#[derive(Clone, Copy, Debug, Error)]
pub enum Fault {
    /// The first line isn't read as a session object.
    Session(SessionFault),
    /// The session of the first line isn't opened.
    Opening(OpeningRefusal),
    /// The input can't be read, or is too long.
    Input,
    /// The output can't be written.
    Output,
    /// There is no memory to keep the session that was opened, or for a line.
    OutOfMemory,
}

/// What the user is told. A fault of the first line, and a cause not to open its session, are called as their crates
/// call them.
impl fmt::Display for Fault {
    fn fmt<W: fmt::Write>(&self, f: &mut fmt::Formatter<W>) -> fmt::Result {
        match self {
            Fault::Session(fault) => write!(f, "{fault}"),
            Fault::Opening(cause) => write!(f, "{cause}"),
            Fault::Input => f.write_str("the script can't be read"),
            Fault::Output => f.write_str("the answers can't be written"),
            Fault::OutOfMemory => f.write_str("out of memory"),
        }
    }
}
