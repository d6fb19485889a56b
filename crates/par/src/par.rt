use scoring::Outcome;

/// How a board ends, and what that scores.
#[derive(Clone, Copy)]
pub struct Par {
    /// What it scores for North-South, in points (Law 77).
    pub score: i32,
    /// The contract with the tricks that are taken in it, unless the board is passed out.
    pub outcome: Outcome,
}
