use std::fmt;
use thiserror::Error;

/// Why an assigned role is not taken away.
#[derive(Clone, Copy, Debug, Error)]
pub enum DeassignError {
    /// There is no such user.
    NoSuchUser,
    /// The edition of the policy doesn't know the role.
    NoSuchRole,
    /// The role is not assigned to the user.
    NotAssigned,
}

/// The variant's name.
impl fmt::Display for DeassignError {
    fn fmt<W: fmt::Write>(&self, f: &mut fmt::Formatter<W>) -> fmt::Result {
        fmt::Debug::fmt(self, f)
    }
}
