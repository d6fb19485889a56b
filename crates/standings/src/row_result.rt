use scoring::Outcome;

/// What a row of a traveller says of how its board ended.
#[derive(Clone, Copy)]
pub enum RowResult {
    /// It was played: what it scored for North-South (Law 77), and North-South's scoring units among the scores of the
    /// traveller (Law 78A).
    Played {
        outcome: Outcome,
        score: i32,
        points: u32,
    },
    /// The director gave an adjusted score (Law 12C2): the percentage of a top for each side.
    Ruled {
        north_south: u8,
        east_west: u8,
    },
}
