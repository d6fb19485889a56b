use scoring::Outcome;

/// The result of a board at a table.
#[derive(Clone, Copy)]
pub enum CellResult {
    /// It was played, and both sides agree how it ended.
    Confirmed(Outcome),
    /// The director gave an adjusted score (Law 12C2): the percentage of a top for each side.
    Ruled { north_south: u8, east_west: u8 },
}
