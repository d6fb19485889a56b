//! What was found, in words.

use crate::member::MemberAt;
use crate::mending::{mending_of, mending_of_member};
use crate::refused::{NamedUser, Refused};
use crate::summary::Summary;
use std::fmt;

/// As `opens: 8 tables, 7 rounds, boards 1 to 24, 36 users`.
impl fmt::Display for Summary {
    fn fmt<W: fmt::Write>(&self, f: &mut fmt::Formatter<W>) -> fmt::Result {
        write!(
            f,
            "opens: {} tables, {} rounds, boards 1 to {}, {} users",
            self.tables, self.rounds, self.boards, self.users
        )
    }
}

/// As `user 7 ("carla")`.
impl fmt::Display for NamedUser {
    fn fmt<W: fmt::Write>(&self, f: &mut fmt::Formatter<W>) -> fmt::Result {
        write!(f, "user {} ({:?})", self.number, self.name.as_str())
    }
}

/// The refusal, as it is told where the session is to be opened; then where, what it means, and how to mend it.
impl fmt::Display for Refused {
    fn fmt<W: fmt::Write>(&self, f: &mut fmt::Formatter<W>) -> fmt::Result {
        write!(f, "{}: ", self.fault)?;
        if let Some(line) = self.line {
            write!(f, "line {line} of the PBN text: ")?;
        }
        if let Some(user) = self.user {
            write!(f, "{user}")?;
            if let Some(other) = self.other {
                write!(f, " and {other}")?;
            }
            f.write_str(": ")?;
        }
        f.write_str(mending_of(self.fault))
    }
}

/// As ``user 7: `digest` is 64 hexadecimal digits``, and what to do.
impl fmt::Display for MemberAt {
    fn fmt<W: fmt::Write>(&self, f: &mut fmt::Formatter<W>) -> fmt::Result {
        if let Some(user) = self.user {
            write!(f, "user {user}: ")?;
        }
        f.write_str(mending_of_member(self.name))
    }
}
