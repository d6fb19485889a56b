/// What a session that opens has.
#[derive(Clone, Copy, Debug, PartialEq, Eq)]
pub struct Summary {
    pub tables: u8,
    pub rounds: u8,
    /// How many boards are played.
    pub boards: u8,
    /// How many users there are.
    pub users: usize,
}
