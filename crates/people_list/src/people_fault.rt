use thiserror::Error;

/// What is wrong with a line of a list of people.
#[derive(Clone, Copy, Debug, Error)]
pub enum LineFault {
    #[error("WrongFields (a line has a field for each column: a text with a comma in it stands in double quotes)")]
    WrongFields,
    #[error("NotText (the list is saved as UTF-8)")]
    NotText,
    #[error("BadShown (`name` is 1 to 64 bytes of text, with no blank at either end)")]
    BadShown,
    #[error("BadPair (`pair` is NS or EW and a number from 1, as NS3)")]
    BadPair,
    #[error("BadPlace (`place` is N, E, S or W)")]
    BadPlace,
    #[error("BadSeat (`pair` and `place` stand together)")]
    BadSeat,
    #[error("BadRole (`roles` are some of Member, Spectator, Contestant, Scorer, Director, Administrator and Commentator, with blanks between them)")]
    BadRole,
    #[error("BadNumber (`number` is 1 to 16 letters and digits)")]
    BadNumber,
    #[error("BadSignIn (`sign_in` is 1 to 32 letters, digits, `-` and `_`)")]
    BadSignIn,
    #[error("NoPart (a person has a pair and a place, or a role)")]
    NoPart,
}

/// Why a list of people isn't read.
#[derive(Clone, Copy, Debug, Error)]
pub enum PeopleFault {
    #[error("TooLong (a list of people has at most 1048576 bytes)")]
    TooLong,
    #[error("NotCsv")]
    NotCsv,
    #[error("NoHeader (the first line names the columns: name,pair,place,roles,number,sign_in)")]
    NoHeader,
    /// A column, counted from 1.
    #[error("UnknownColumn: column {0} (the columns are name, pair, place, roles, number and sign_in)")]
    UnknownColumn(usize),
    /// A column, counted from 1.
    #[error("ColumnTwice: column {0}")]
    ColumnTwice(usize),
    #[error("NoNameColumn (a column is called name)")]
    NoNameColumn,
    #[error("NoPeople (the list has no line under that of the columns)")]
    NoPeople,
    /// A line, counted from 1, and what is wrong with it.
    #[error("line {0}: {1}")]
    Line(u64, LineFault),
    #[error("OutOfMemory")]
    OutOfMemory,
}
