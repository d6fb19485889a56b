use crate::row_result::RowResult;
use table_terms::Pair;

/// A row of a board's traveller: what happened at one table.
#[derive(Clone, Copy)]
pub struct TravellerRow {
    pub table: u8,
    pub north_south: Pair,
    pub east_west: Pair,
    pub result: RowResult,
}
