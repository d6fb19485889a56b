use crate::result_row::ResultRow;
use cards::Deal;
use disclosure_rules::Marks;
use query_filter::TrickTable;
use table_terms::Items;

/// A board with all its results.
#[derive(Drop)]
pub struct BoardReport {
    /// From 1.
    pub number: u8,
    pub deal: Deal,
    pub marks: Marks,
    /// The double-dummy tricks, once the board is solved.
    pub tricks: Option<TrickTable>,
    /// Table by table.
    pub rows: Items<ResultRow>,
}
