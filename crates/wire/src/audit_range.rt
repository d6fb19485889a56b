/// Which rows of the audit are asked for.
#[derive(Clone, Copy)]
pub struct AuditRange {
    /// The number of the first one, from 1.
    pub from: u64,
    /// How many at most, 1 to 1,000.
    pub limit: u16,
}
