//! The line of a board.

ghost use Rattle.std.specs.Prelude.{◌≡◌, ◌≤◌, ◌-◌, Some, IfOk, length, slice_get, string_bytes};
ghost use Rattle.pbn_boards.specs.Line.{line_text};
ghost use Rattle.pbn_records.specs.declared.board.Board.{Board};

use pbn_records::BoardSet;
use std::alloc::{AllocError, Global};

/// A board's number, its dealer, who is vulnerable, and its deal, with an LF.
pub fn board_line(alloc: Global, set: &BoardSet, board: u8) -> Result<String, AllocError>
    requires { (1 ≤ board) × (board ≤ length set.now) }
    ensures { IfOk result (λ text. (given : Board) → slice_get set.now (board - 1) ≡ Some given →
        string_bytes text ≡ line_text board given) }
{
    let dealer = set.dealer(board);
    let vulnerability = set.vulnerability(board);
    let deal = set.deal(board);
    format!(in alloc; "{board} {dealer} {vulnerability} {deal}\n")
}
