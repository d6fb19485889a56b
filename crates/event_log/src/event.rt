//! What happens while a session is served.

use hall_terms::ClientEnd;
use session_commands::{CommandWord, Refusal};
use std::time::Duration;
use user_names::Name;

/// Who is on a connection.
#[derive(Clone, Copy)]
pub enum Guest {
    /// Nobody who is known: a name is told only where it is a user's.
    Nobody,
    /// This user.
    User(Name),
}

/// What became of a command of a batch. What the command carries isn't told.
#[derive(Clone, Copy)]
pub enum AnsweredCommand {
    /// It was entered.
    Entered(CommandWord),
    /// It was refused, for this cause. Of whom or what the cause is isn't told.
    Refused(CommandWord, Refusal),
}

/// Why a batch has no answer of its own.
#[derive(Clone, Copy, Debug, PartialEq, Eq)]
pub enum BatchFault {
    /// It wasn't kept, and nothing of it was entered.
    NotKept,
    /// Whether it was kept isn't known.
    Unsure,
    /// There was no memory for it.
    OutOfMemory,
}

/// What happens while a session is served.
#[derive(Clone, Copy)]
pub enum Event<'a> {
    /// A user signed in.
    SignedIn(Name),
    /// Somebody didn't sign in: this user, by a wrong token, or somebody by a name that is nobody's.
    NotSignedIn(Guest),
    /// A user's batch was answered: from this entry to that one, 0 to 0 where nothing was entered.
    Answered(Name, u64, u64, &'a [AnsweredCommand]),
    /// A user's batch of so many commands has no answer of its own.
    Unanswered(Name, u64, BatchFault),
    /// A client's connection ended, so long after its handshake.
    Ended(Guest, ClientEnd, Duration),
    /// A board's table was solved, and took so long, where the clock could be read.
    TableSolved(u8, Option<Duration>),
    /// What the cards cost that were played at a table on a board was found, and took so long.
    CostsFound(u8, u8, Option<Duration>),
    /// Nothing was found of a board in so long: visits or memory ran out.
    NotFound(u8, Option<Duration>),
}
