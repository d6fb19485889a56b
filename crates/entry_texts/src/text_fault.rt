use thiserror::Error;

/// Why texts aren't read as an entry's.
#[derive(Clone, Copy, Debug, PartialEq, Eq, Error)]
pub enum TextFault {
    /// They are no entry's.
    #[error("not the texts of an entry")]
    Unreadable,
    /// Memory was refused.
    #[error("out of memory")]
    OutOfMemory,
}
