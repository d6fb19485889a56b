//! Whom an event is of.

use mio::Token;

/// Whom an event is of.
#[derive(Clone, Copy, Debug, PartialEq, Eq)]
pub(crate) enum Source {
    /// The listener: somebody wants to come in.
    Door,
    /// A connection that asks over HTTP, by its key among those.
    Asker(usize),
    /// A client who talks, by its key among those.
    Talker(usize),
}

// The token of the listener, which is no key's.
const DOOR: usize = usize::MAX;

impl Source {
    /// Its token: an even number for who asks, and an odd one for who talks.
    pub(crate) fn token(self) -> Token {
        match self {
            Source::Door => Token(DOOR),
            Source::Asker(key) => Token(key.wrapping_mul(2)),
            Source::Talker(key) => Token(key.wrapping_mul(2).wrapping_add(1)),
        }
    }

    /// Whose token it is.
    pub(crate) fn of(token: Token) -> Source {
        let Token(number) = token;
        if number == DOOR {
            Source::Door
        } else if number % 2 == 0 {
            Source::Asker(number / 2)
        } else {
            Source::Talker(number / 2)
        }
    }
}
