use solver_results::{DdTable, PlayCosts};

/// What a worker found, or why it found nothing.
#[derive(Drop)]
pub enum Found {
    Table(DdTable),
    Costs(PlayCosts),
    /// The visits of the job's budget are spent.
    OutOfBudget,
    /// The search, or what it found, has no memory.
    OutOfMemory,
}
