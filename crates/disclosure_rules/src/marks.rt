use table_terms::{Place, Vulnerability};

/// What is marked on a board (Law 2).
#[derive(Clone, Copy)]
pub struct Marks {
    pub dealer: Place,
    pub vulnerability: Vulnerability,
}
