use crate::cell_result::CellResult;
use movement::Cell;

/// The result of a table on a board: where it was played, and how it ended.
#[derive(Clone, Copy)]
pub struct TableResult {
    pub cell: Cell,
    pub result: CellResult,
}
