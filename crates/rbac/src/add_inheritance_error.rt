use session_roles::SeparationSet;
use std::fmt;
use thiserror::Error;

/// Why an inheritance pair is not added.
#[derive(Clone, Copy, Debug, Error)]
pub enum AddInheritanceError {
    /// The edition of the policy doesn't know one of the roles.
    NoSuchRole,
    /// The junior role inherits the senior one.
    Cycle,
    /// The pair is there already.
    AlreadyThere,
    /// A user would be authorized for both roles of this set.
    Separation(SeparationSet),
}

/// The variant's name.
impl fmt::Display for AddInheritanceError {
    fn fmt<W: fmt::Write>(&self, f: &mut fmt::Formatter<W>) -> fmt::Result {
        fmt::Debug::fmt(self, f)
    }
}
