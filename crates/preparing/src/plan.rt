use named_movements::MovementWord;
use table_terms::Pair;

/// What a club plans for a session, beside its people and its boards.
#[derive(Clone, Copy)]
pub struct Plan<'a> {
    pub tables: u8,
    pub rounds: u8,
    /// How many boards a set has.
    pub per_set: u8,
    /// The movement, by its name in the field. Without one it is a Mitchell.
    pub movement: Option<MovementWord>,
    /// In how many of the last rounds the pairs sit the other way round.
    pub switched: Option<u8>,
    /// The pair that is absent, if one is.
    pub absent: Option<Pair>,
    /// How many visits a solver's call may make.
    pub budget: u64,
    /// What the session is called, if it is.
    pub title: Option<&'a str>,
    /// The day of the session, as `2026-11-27`, if it is said.
    pub date: Option<&'a str>,
    /// Where the page is that people sign in on, as `https://bridge.example/`.
    pub address: &'a str,
}
