//! What is left to solve at a cell.

ghost use Rattle.std.specs.Prelude.{◌≡◌, ◌-◌, Some, slice_get};
ghost use Rattle.cards.specs.Hands.{Hands};
ghost use Rattle.movement.specs.Movement.{IsCell, IsSection};
ghost use Rattle.movement.specs.Row.{IsCellInRange};
ghost use Rattle.session_state.specs.SessionState.{cell_at};
ghost use Rattle.session_jobs.specs.Work.{IsWorkLeft, costs_wanted, work_left};

use cards::{Deal, Play};
use movement::Cell;
use scoring::Outcome;
use session_commands::CellState;
use session_state::State;
use solver_pool::Work;

/// The costs that are left to find at a cell: of a confirmed result with a contract and a play, which aren't there yet.
pub fn work_of(state: &State, cell: Cell) -> Option<Work>
    ensures { IsWorkLeft state.now cell result }
{
    match state.public().movement.cell(cell.table, cell.board) {
        Some(own) => work_at(state, own),
        None => None,
    }
}

// The work that is left at a cell.
fn work_at(state: &State, cell: Cell) -> Option<Work>
    requires section { IsSection state.now.public.movement }
    requires range { IsCellInRange state.now.public.movement cell }
    ensures { (deal : Hands) → slice_get state.now.deals (cell.board - 1) ≡ Some deal →
        result ≡ work_left cell deal (cell_at state.now cell) }
{
    let known = state.cell(cell);
    work_of_known(cell, state.deal(cell.board), &known)
}

// The work that is left of what is known of a cell.
fn work_of_known(cell: Cell, deal: Deal, known: &CellState) -> Option<Work>
    ensures { result ≡ work_left cell deal known.now }
{
    match known {
        CellState::Confirmed { outcome, play, .. } => {
            if known.is_counted() {
                return None;
            }
            costs_wanted(cell, deal, *outcome, play)
        }
        CellState::Empty | CellState::Entered { .. } | CellState::Ruled { .. } => None,
    }
}

// What a play cost is wanted, where there was a contract.
fn costs_wanted(cell: Cell, deal: Deal, outcome: Outcome, play: &Play) -> Option<Work>
    ensures { result ≡ costs_wanted cell deal outcome play.now }
{
    match outcome {
        Outcome::Played { contract, .. } => Some(Work::Costs {
            cell,
            deal,
            contract,
            play: *play,
        }),
        Outcome::PassedOut => None,
    }
}
