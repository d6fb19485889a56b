use table_terms::Pair;

/// What a pair has earned in a session, and what it could have earned.
#[derive(Clone, Copy)]
pub struct Standing {
    pub pair: Pair,
    /// The sum over its boards, in hundredths of a scoring unit (Law 78A).
    pub earned: u64,
    /// The most that could be earned on them, in the same unit.
    pub tops: u64,
}
