use table_terms::{Pair, Place};

/// Where a user sits: one of the two places of a pair.
#[derive(Clone, Copy, PartialEq, Eq)]
pub struct Seat {
    pub pair: Pair,
    pub place: Place,
}
