use crate::trick_table::TrickTable;
use scoring::Outcome;
use table_terms::{Items, Place, Vulnerability};

/// What a filter is given of a board: its marks and what is shown of it. A cell that was ruled has no outcome, and a
/// board whose analysis isn't shown or is still pending has no tricks.
#[derive(Drop)]
pub struct BoardFacts {
    pub vulnerability: Vulnerability,
    pub dealer: Place,
    pub outcomes: Items<Outcome>,
    pub tricks: Option<TrickTable>,
}
