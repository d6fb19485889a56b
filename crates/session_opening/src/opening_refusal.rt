use session_roles::SeparationSet;
use std::fmt;
use thiserror::Error;

/// Why a session isn't opened, in the order in which the causes are looked at: first user by user, then of all users.
#[derive(Clone, Copy, Debug, Error)]
pub enum OpeningRefusal {
    /// A name has 1 to 32 letters, digits, `-` and `_`.
    BadName,
    /// There is a user of this name.
    UserExists,
    /// There are more than 256 users.
    TooManyUsers,
    /// The edition has no such role.
    NoSuchRole,
    /// A role is assigned to a user twice.
    AlreadyAssigned,
    /// A user would be authorized for both roles of this set.
    Separation(SeparationSet),
    /// The section has no such pair.
    NoSuchPair,
    /// The pair doesn't sit in this direction.
    WrongDirection,
    /// A user has a seat and isn't authorized for Contestant.
    NotContestant,
    /// Another user has the seat.
    SeatTaken,
    /// Nobody is authorized for Administrator.
    LastAdministrator,
    /// Out of memory.
    OutOfMemory,
}

/// The variant's name.
impl fmt::Display for OpeningRefusal {
    fn fmt<W: fmt::Write>(&self, f: &mut fmt::Formatter<W>) -> fmt::Result {
        fmt::Debug::fmt(self, f)
    }
}
