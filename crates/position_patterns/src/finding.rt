use cards::Hand;

/// Whether North and South take so many tricks, and the cards whose rank mattered.
#[derive(Clone, Copy)]
pub struct Finding {
    pub holds: bool,
    pub known: Hand,
}
