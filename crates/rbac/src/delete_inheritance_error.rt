use std::fmt;
use thiserror::Error;

/// Why an inheritance pair is not deleted.
#[derive(Clone, Copy, Debug, Error)]
pub enum DeleteInheritanceError {
    /// The edition of the policy doesn't know one of the roles.
    NoSuchRole,
    /// The pair is not there.
    NotThere,
}

/// The variant's name.
impl fmt::Display for DeleteInheritanceError {
    fn fmt<W: fmt::Write>(&self, f: &mut fmt::Formatter<W>) -> fmt::Result {
        fmt::Debug::fmt(self, f)
    }
}
