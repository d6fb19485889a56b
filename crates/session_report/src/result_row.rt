use standings::{Earning, TravellerRow};

/// A result on a board: its row of the traveller, and what it earns for its two pairs (Law 78A).
#[derive(Clone, Copy)]
pub struct ResultRow {
    /// The board's number, from 1.
    pub board: u8,
    pub row: TravellerRow,
    /// In hundredths of a scoring unit.
    pub earning: Earning,
}
