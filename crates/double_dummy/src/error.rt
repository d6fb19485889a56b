/// Why a position or a deal was not solved.
#[derive(Clone, Copy)]
pub enum SolveError {
    /// The visits of the budget are spent.
    OutOfBudget,
    /// What the search remembers found no memory.
    OutOfMemory,
}

/// Why the cards of a play have no costs.
#[derive(Clone, Copy)]
pub enum CostsError {
    /// The card of this number, from 1, is the first that is not legal.
    NotAPlay(usize),
    /// The visits of the budget are spent.
    OutOfBudget,
    /// What the search remembers found no memory.
    OutOfMemory,
}
