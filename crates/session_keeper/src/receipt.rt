use session_book::{AuditError, AuditRows, Submission};

/// What is told of a batch.
#[derive(Drop)]
pub struct BatchReceipt {
    /// The answers, and the numbers of the entries that joined the journal.
    pub submission: Submission,
    /// The version after the batch.
    pub version: usize,
}

/// What is told of an audit.
#[derive(Drop)]
pub struct AuditReceipt {
    /// The rows, or why there are none.
    pub rows: Result<AuditRows, AuditError>,
    /// The version whose journal was looked at.
    pub version: usize,
}
