ghost use Rattle.std.specs.Prelude.{◌≡◌, ◌-◌, ◌≤◌, length, Some, slice_get};
ghost use Rattle.pbn_records.specs.declared.board.Board.{Board};

use crate::board::Board;
use cards::Deal;
use std::marker::Model;
use table_terms::{Place, Vulnerability};

/// A deal, a dealer and a vulnerability for each board from 1.
#[derive(Drop)]
pub struct BoardSet {
    boards: u8,
    row: Vec<Board>,
}

impl Model for BoardSet {
    ghost use Rattle.std.specs.Prelude.{◌≡◌, List, length};
    ghost use Rattle.pbn_records.specs.declared.board.Board.{Board};
    ghost use Rattle.std.specs.Coded.{coded_list};
    ghost use Rattle.pbn_records.specs.contracts.board.Board as the_board;

    ghost Value = { List Board };

    ghost coded = { coded_list the_board.the_row.coded };

    ghost view = { λ set. set.row.items };

    ghost invariant = { λ set. length set.row.items ≡ set.boards };
}

impl BoardSet {
    /// The boards from 1, in their order.
    pub(crate) fn new(boards: u8, row: Vec<Board>) -> BoardSet
        requires { length row.items ≡ boards }
        ensures { result ≡ row.items }
    {
        BoardSet { boards, row }
    }

    /// How many boards there are.
    pub fn boards(&self) -> u8
        ensures { result ≡ length self.now }
    {
        self.boards
    }

    /// What was read of a board.
    fn board(&self, board: u8) -> Board
        requires { (1 ≤ board) × (board ≤ length self.now) }
        ensures { slice_get self.now (board - 1) ≡ Some result }
    {
        self.row[usize::from(board - 1)]
    }

    /// The deal of a board.
    pub fn deal(&self, board: u8) -> Deal
        requires { (1 ≤ board) × (board ≤ length self.now) }
        ensures { (given : Board) → slice_get self.now (board - 1) ≡ Some given → result ≡ given.deal }
    {
        self.board(board).deal
    }

    /// Who deals a board.
    pub fn dealer(&self, board: u8) -> Place
        requires { (1 ≤ board) × (board ≤ length self.now) }
        ensures { (given : Board) → slice_get self.now (board - 1) ≡ Some given → result ≡ given.dealer }
    {
        self.board(board).dealer
    }

    /// Which sides are vulnerable on a board.
    pub fn vulnerability(&self, board: u8) -> Vulnerability
        requires { (1 ≤ board) × (board ≤ length self.now) }
        ensures { (given : Board) → slice_get self.now (board - 1) ≡ Some given → result ≡ given.vulnerability }
    {
        self.board(board).vulnerability
    }
}
