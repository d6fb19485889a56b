use session_roles::SeparationSet;
use std::fmt;
use thiserror::Error;
use user_names::Name;

/// Why a command is refused. Each command's causes are looked at in this order, but for those of its own.
#[derive(Clone, Copy, Debug, Error)]
pub enum Refusal {
    /// The user has no permission for the command.
    NotPermitted,
    /// There is no such user.
    NoSuchUser,
    /// The table is not scheduled to play the board.
    NoSuchCell,
    /// The session has no such board.
    NoSuchBoard,
    /// The session has another phase.
    WrongPhase,
    /// The round has not started.
    RoundNotStarted,
    /// The play has a card twice, or a passed-out board has a play.
    BadResult,
    /// There is a result already.
    AlreadyLive,
    /// Nothing is entered that could be confirmed.
    NothingEntered,
    /// Something else is entered.
    Mismatch,
    /// The user of this name sits there and was shown something of the board.
    Spoiled(Name),
    /// There is no result.
    NotLive,
    /// A percentage is at most 100, and a reason is 1 to 99.
    BadRuling,
    /// The board is held already.
    AlreadyHeld,
    /// The board is not held.
    NotHeld,
    /// The session is under embargo already.
    AlreadyEmbargoed,
    /// The session is not under embargo.
    NotEmbargoed,
    /// The section has no such pair.
    NoSuchPair,
    /// The place is not one of the pair's side.
    WrongDirection,
    /// The user is not authorized for Contestant.
    NotContestant,
    /// The user has a seat already.
    AlreadySeated,
    /// Somebody sits there.
    SeatTaken,
    /// The user has no seat.
    NotSeated,
    /// This is the last round.
    NoMoreRounds,
    /// A scheduled board has no result at a table.
    NotAllLive,
    /// A name has 1 to 32 letters, digits, `-` and `_`.
    BadName,
    /// There is a user of this name.
    UserExists,
    /// There are 256 users.
    TooManyUsers,
    /// The session's edition has no such role.
    NoSuchRole,
    /// The role is assigned to the user already.
    AlreadyAssigned,
    /// A user would be authorized for both roles of this set.
    Separation(SeparationSet),
    /// The role is not assigned to the user.
    NotAssigned,
    /// A seated user would not be authorized for Contestant.
    StillSeated,
    /// Nobody would be authorized for Administrator.
    LastAdministrator,
    /// The junior role inherits the senior one.
    Cycle,
    /// The pair is there already.
    AlreadyThere,
    /// The pair is not there.
    NotThere,
    /// The table is of another deal.
    StrangeDeal,
    /// It is solved already.
    AlreadySolved,
    /// The costs are of another deal, contract or play.
    StrangePlay,
    /// The journal is full.
    JournalFull,
    /// Out of memory.
    OutOfMemory,
    /// A command before it found no memory.
    NotTried,
}

impl Refusal {
    ghost use Rattle.std.specs.Prelude.{◌≡◌};
    ghost use Rattle.session_commands.specs.Refusal.{is_out_of_memory, refusal_name};

    /// Whether memory was refused.
    pub fn is_out_of_memory(&self) -> bool
        ensures { result ≡ is_out_of_memory self.now }
    {
        matches!(self, Refusal::OutOfMemory)
    }

    /// How it is called, without whom or what it is about.
    pub fn name(&self) -> &'static str
        ensures { result.now ≡ refusal_name self.now }
    {
        match self {
            Refusal::NotPermitted => "NotPermitted",
            Refusal::NoSuchUser => "NoSuchUser",
            Refusal::NoSuchCell => "NoSuchCell",
            Refusal::NoSuchBoard => "NoSuchBoard",
            Refusal::WrongPhase => "WrongPhase",
            Refusal::RoundNotStarted => "RoundNotStarted",
            Refusal::BadResult => "BadResult",
            Refusal::AlreadyLive => "AlreadyLive",
            Refusal::NothingEntered => "NothingEntered",
            Refusal::Mismatch => "Mismatch",
            Refusal::Spoiled(_) => "Spoiled",
            Refusal::NotLive => "NotLive",
            Refusal::BadRuling => "BadRuling",
            Refusal::AlreadyHeld => "AlreadyHeld",
            Refusal::NotHeld => "NotHeld",
            Refusal::AlreadyEmbargoed => "AlreadyEmbargoed",
            Refusal::NotEmbargoed => "NotEmbargoed",
            Refusal::NoSuchPair => "NoSuchPair",
            Refusal::WrongDirection => "WrongDirection",
            Refusal::NotContestant => "NotContestant",
            Refusal::AlreadySeated => "AlreadySeated",
            Refusal::SeatTaken => "SeatTaken",
            Refusal::NotSeated => "NotSeated",
            Refusal::NoMoreRounds => "NoMoreRounds",
            Refusal::NotAllLive => "NotAllLive",
            Refusal::BadName => "BadName",
            Refusal::UserExists => "UserExists",
            Refusal::TooManyUsers => "TooManyUsers",
            Refusal::NoSuchRole => "NoSuchRole",
            Refusal::AlreadyAssigned => "AlreadyAssigned",
            Refusal::Separation(_) => "Separation",
            Refusal::NotAssigned => "NotAssigned",
            Refusal::StillSeated => "StillSeated",
            Refusal::LastAdministrator => "LastAdministrator",
            Refusal::Cycle => "Cycle",
            Refusal::AlreadyThere => "AlreadyThere",
            Refusal::NotThere => "NotThere",
            Refusal::StrangeDeal => "StrangeDeal",
            Refusal::AlreadySolved => "AlreadySolved",
            Refusal::StrangePlay => "StrangePlay",
            Refusal::JournalFull => "JournalFull",
            Refusal::OutOfMemory => "OutOfMemory",
            Refusal::NotTried => "NotTried",
        }
    }
}

/// The variant's name, without whom or what it is about.
impl fmt::Display for Refusal {
    ghost use Rattle.std.specs.Prelude.{Some};
    ghost use Rattle.session_commands.specs.Refusal.{refusal_name};

    ghost output = { λ refusal. Some (refusal_name refusal) };

    fn fmt<W: fmt::Write>(&self, f: &mut fmt::Formatter<W>) -> fmt::Result {
        f.write_str(self.name())
    }
}
