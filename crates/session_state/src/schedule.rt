ghost use Rattle.std.specs.Prelude.{◌≡◌, true, false, not, IfSome};
ghost use Rattle.disclosure_rules.specs.Seating.{some_that};
ghost use Rattle.movement.specs.Movement.{IsCell, has_board};
ghost use Rattle.movement.specs.Schedule.{is_scheduled, is_later};
ghost use Rattle.session_state.specs.SessionState.{IsPlaced, IsKeptBoard};

use movement::{Cell, Movement};

/// Whether the cell's table is scheduled to play its board.
#[tactic(auto, using(crate::proofs::ScheduleLemmas::found_scheduled))]
pub fn has_cell(movement: &Movement, cell: Cell) -> bool
    ensures test { result ≡ is_scheduled movement.now cell }
    ensures cell { result ≡ true → IsCell movement.now cell }
    ensures placed { result ≡ true → IsPlaced cell }
{
    movement.cell(cell.table, cell.board).is_some()
}

/// Whether a cell is played after a round.
#[tactic(auto, using(crate::proofs::ScheduleLemmas::later_than))]
pub fn is_later(movement: &Movement, cell: Cell, round: u8) -> bool
    requires { IsCell movement.now cell }
    ensures { result ≡ is_later movement.now cell round }
{
    round < movement.round_of(cell)
}

/// Whether there is a cell that its table is not scheduled to play.
pub fn misses_cell(movement: &Movement, cell: Option<Cell>) -> bool
    ensures test { result ≡ some_that cell (λ cell. not (is_scheduled movement.now cell)) }
    ensures cell { result ≡ false → IfSome cell (IsCell movement.now) }
    ensures placed { result ≡ false → IfSome cell IsPlaced }
{
    match cell {
        Some(cell) => !has_cell(movement, cell),
        None => false,
    }
}

/// Whether there is a cell that is played after a round.
pub fn awaits_round(movement: &Movement, cell: Option<Cell>, round: u8) -> bool
    requires { IfSome cell (IsCell movement.now) }
    ensures { result ≡ some_that cell (λ cell. is_later movement.now cell round) }
{
    match cell {
        Some(cell) => is_later(movement, cell, round),
        None => false,
    }
}

/// Whether there is a board that is not one of the section.
pub fn misses_board(movement: &Movement, board: Option<u8>) -> bool
    ensures test { result ≡ some_that board (λ board. not (has_board movement.now board)) }
    ensures kept { result ≡ false → IfSome board IsKeptBoard }
{
    match board {
        Some(board) => !has_board(movement, board),
        None => false,
    }
}

// Whether the section has a board of this number.
fn has_board(movement: &Movement, board: u8) -> bool
    ensures test { result ≡ has_board movement.now board }
    ensures kept { result ≡ true → IsKeptBoard board }
{
    1 <= board && board <= movement.boards()
}
