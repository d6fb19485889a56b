/// Why the rows of a journal aren't read.
#[derive(Clone, Copy, Debug, PartialEq, Eq)]
pub enum RowFault {
    /// Memory was refused.
    OutOfMemory,
    /// There are more than 60,000 rows, or the publications aren't numbered from 1, each row's as that of the row
    /// before it or one more.
    Misnumbered,
    /// The row of this number, from 1, has texts that are no entry's.
    Unreadable(u32),
    /// What the solver found of the row of this number, from 1, wasn't found again: visits or memory ran out.
    Unsolved(u32),
}
