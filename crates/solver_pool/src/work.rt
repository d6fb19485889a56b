use cards::{Deal, Play};
use movement::Cell;
use scoring::Contract;

/// What is to be solved.
#[derive(Clone, Copy)]
pub enum Work {
    /// The double-dummy table of a board.
    Table {
        board: u8,
        deal: Deal,
    },
    /// What each card cost that was played of a board at a table.
    Costs {
        cell: Cell,
        deal: Deal,
        contract: Contract,
        play: Play,
    },
}
