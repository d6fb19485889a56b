//! Pairs, by where they begin.

use table_terms::{Pair, Side};

pub(super) fn ns(number: u8) -> Pair {
    Pair {
        side: Side::NorthSouth,
        number,
    }
}

pub(super) fn ew(number: u8) -> Pair {
    Pair {
        side: Side::EastWest,
        number,
    }
}
