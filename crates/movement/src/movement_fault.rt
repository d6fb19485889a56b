/// Why a row can't stand after the rows before it.
#[derive(Clone, Copy, Debug, PartialEq, Eq)]
pub enum MovementFault {
    /// Its round, table, set or a pair's number isn't one of the movement, or its pairs are one.
    OutOfRange,
    /// Its table has a row in that round.
    TableTwice,
    /// Its table has a row at that set.
    SetAtTableAgain,
    /// One of its pairs has a row in that round.
    PairTwice,
    /// One of its pairs has a row at that set.
    SetAgain,
    /// Its pairs have met.
    OpponentsAgain,
    /// Its set has as many rows in that round as may share it.
    SharedByTooMany,
}

impl MovementFault {
    /// The faults, in the order in which they are looked for.
    pub const ALL: [MovementFault; 7] = [
        MovementFault::OutOfRange,
        MovementFault::TableTwice,
        MovementFault::SetAtTableAgain,
        MovementFault::PairTwice,
        MovementFault::SetAgain,
        MovementFault::OpponentsAgain,
        MovementFault::SharedByTooMany,
    ];
}
