use std::fmt;
use thiserror::Error;

/// Why a user is not added.
#[derive(Clone, Copy, Debug, Error)]
pub enum AddUserError {
    /// A name has 1 to 32 letters, digits, `-` and `_`.
    BadName,
    /// There is a user of this name.
    UserExists,
    /// There are 256 users.
    TooManyUsers,
}

/// The variant's name.
impl fmt::Display for AddUserError {
    fn fmt<W: fmt::Write>(&self, f: &mut fmt::Formatter<W>) -> fmt::Result {
        fmt::Debug::fmt(self, f)
    }
}
