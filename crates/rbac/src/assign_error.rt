use session_roles::SeparationSet;
use std::fmt;
use thiserror::Error;

/// Why a role is not assigned to a user.
#[derive(Clone, Copy, Debug, Error)]
pub enum AssignError {
    /// There is no such user.
    NoSuchUser,
    /// The edition of the policy doesn't know the role.
    NoSuchRole,
    /// The role is assigned to the user already.
    AlreadyAssigned,
    /// A user would be authorized for both roles of this set.
    Separation(SeparationSet),
}

/// The variant's name.
impl fmt::Display for AssignError {
    fn fmt<W: fmt::Write>(&self, f: &mut fmt::Formatter<W>) -> fmt::Result {
        fmt::Debug::fmt(self, f)
    }
}
