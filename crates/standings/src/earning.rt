use table_terms::Pair;

/// What a result earns for its two pairs, in hundredths of a scoring unit (Law 78A), and what either could have earned.
#[derive(Clone, Copy)]
pub struct Earning {
    pub north_south: Pair,
    pub east_west: Pair,
    pub for_north_south: u32,
    pub for_east_west: u32,
    pub top: u32,
}
