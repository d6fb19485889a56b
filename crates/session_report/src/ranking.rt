//! How the pairs rank over all boards.
ghost use Rattle.std.specs.Prelude.{◌≡◌, ◌≤◌, ◌+◌, ◌++◌, true, IfOk, OnOk, vec_capacity, vec_len};
ghost use Rattle.movement.specs.Movement.{IsSection, has_board, most_tables};
ghost use Rattle.standings.specs.Ranking.{most_results};
ghost use Rattle.session_report.specs.Report.{results_earn, session_earnings, session_ranking};

use movement::Movement;
use scoring::Standing;
use session_queries::put_results;
use session_state::State;
use standings::{Earning, TableResult, add_earnings, ranking_of as ranking_by};
use std::alloc::{AllocError, Global};

/// The pairs in the order in which they rank, by what all results of all boards earn.
pub(crate) fn ranking_of(alloc: Global, state: &State) -> Result<Vec<Standing>, AllocError>
    ensures { IfOk result (λ standings. standings.items ≡ session_ranking state.now) }
{
    let earnings = earnings_of(alloc, state)?;
    let standings = ranking_by(alloc, &state.public().movement, &earnings)?;
    Ok(standings)
}

/// What the results of all boards earn.
fn earnings_of(alloc: Global, state: &State) -> Result<Vec<Earning>, AllocError>
    ensures earnings { IfOk result (λ earnings. earnings.items ≡ session_earnings state.now) }
    ensures few { IfOk result (λ earnings. vec_len earnings ≤ most_results) }
{
    let mut results = Vec::with_capacity(alloc, usize::from(Movement::MOST_TABLES))?;
    let mut earnings = Vec::new(alloc);
    for before in 0..state.public().movement.boards() {
        add_board(alloc, state, before + 1, &mut results, &mut earnings)?;
    }
    Ok(earnings)
}

/// Adds what the results of a board earn.
fn add_board(
    alloc: Global,
    state: &State,
    number: u8,
    results: &mut Vec<TableResult>,
    earnings: &mut Vec<Earning>,
) -> Result<(), AllocError>
    requires section { IsSection state.now.public.movement }
    requires there { has_board state.now.public.movement number ≡ true }
    requires room { most_tables ≤ vec_capacity results.old }
    ensures earnings { OnOk result (earnings.new.items ≡ earnings.old.items ++ results_earn state.now number) }
    ensures few { OnOk result (vec_len earnings.new ≤ vec_len earnings.old + most_tables) }
    ensures room { OnOk result (most_tables ≤ vec_capacity results.new) }
{
    let public = state.public();
    put_results(state, number, results);
    let vulnerability = state.marks(number).vulnerability;
    add_earnings(alloc, &public.movement, vulnerability, results, earnings)?;
    Ok(())
}
