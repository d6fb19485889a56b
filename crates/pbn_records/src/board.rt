use cards::Deal;
use table_terms::{Place, Vulnerability};

/// A board: its deal and its marks.
#[derive(Clone, Copy)]
pub struct Board {
    pub deal: Deal,
    pub dealer: Place,
    pub vulnerability: Vulnerability,
}
