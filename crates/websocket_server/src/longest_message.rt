/// How many bytes a message has at most that is read whole: one more than one that is answered, which says that it is
/// too long. A longer one ends its connection.
pub const LONGEST_MESSAGE: usize = 65_537;
