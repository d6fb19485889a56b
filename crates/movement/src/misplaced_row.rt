use crate::movement_fault::MovementFault;

/// A row that can't stand where it does.
#[derive(Clone, Copy, Debug, PartialEq, Eq)]
pub struct MisplacedRow {
    /// Its place among the rows, from 0.
    pub place: usize,
    pub fault: MovementFault,
}
