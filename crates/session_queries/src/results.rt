ghost use Rattle.std.specs.Prelude.{◌≡◌, ◌≤◌, ◌<◌, ◌+◌, [], ◌++◌, All, IfOk, OnOk, vec_capacity, vec_len};
ghost use Rattle.std.specs.List.{cons_option};
ghost use Rattle.std.specs.Option.{option_map};
ghost use Rattle.movement.specs.Movement.{IsCell, IsSection, most_tables};
ghost use Rattle.session_state.specs.SessionState.{IsPlaced, cell_at};
ghost use Rattle.session_queries.specs.Content.{result_of};
ghost use Rattle.session_queries.specs.Reading.{result_at, shown_results};
ghost use Rattle.session_queries.specs.Results.{allowed_at, allowed_result, allowed_results, live_result, live_results};
ghost use Rattle.session_queries.specs.Shown.{shown};

use crate::known::result_of;
use crate::push::push_found;
use disclosure_rules::{Fact, Viewer, decide};
use movement::Cell;
use session_commands::room::put_item;
use session_state::State;
use standings::TableResult;
use std::alloc::{AllocError, Global};

/// The results on a board that a user is shown, table by table.
#[tactic(auto, using(crate::proofs::ResultLemmas::results_shown, crate::proofs::ResultLemmas::allowed_cells))]
pub fn shown_results(
    alloc: Global,
    state: &State,
    viewer: &Viewer,
    board: u8,
) -> Result<Vec<TableResult>, AllocError>
    ensures results { IfOk result (λ results.
        results.items ≡ shown_results state.now.public.movement (shown state.now viewer.now) board) }
    ensures cells { IfOk result (λ results.
        All (λ found. IsCell state.now.public.movement found.cell) results.items) }
    ensures few { IfOk result (λ results. vec_len results ≤ most_tables) }
{
    let results = allowed_results(alloc, state, viewer, board)?;
    Ok(results)
}

/// The results on a board that the user may see, table by table.
fn allowed_results(
    alloc: Global,
    state: &State,
    viewer: &Viewer,
    board: u8,
) -> Result<Vec<TableResult>, AllocError>
    ensures results { IfOk result (λ results.
        results.items ≡ allowed_results state.now viewer.now board state.now.public.movement.tables) }
    ensures few { IfOk result (λ results. vec_len results ≤ most_tables) }
    ensures section { IfOk result (λ _. IsSection state.now.public.movement) }
{
    let tables = state.public().movement.tables();
    let mut results = Vec::with_capacity(alloc, tables as usize)?;
    for below in 0..tables {
        push_found(
            &mut results,
            allowed_result(state, viewer, below + 1, board),
        )?;
    }
    Ok(results)
}

/// The result of a table on a board, where there is one and the user may see it.
#[tactic(auto, using(crate::proofs::ResultLemmas::unscheduled, crate::proofs::ResultLemmas::scheduled))]
fn allowed_result(state: &State, viewer: &Viewer, table: u8, board: u8) -> Option<TableResult>
    ensures { result ≡ allowed_result state.now viewer.now board table }
{
    match state.public().movement.cell(table, board) {
        Some(cell) => allowed_at(state, viewer, cell),
        None => None,
    }
}

/// The result of a cell, where there is one and the user may see it.
#[tactic(auto, using(crate::proofs::ResultLemmas::forbidden_at, crate::proofs::ResultLemmas::free_at))]
fn allowed_at(state: &State, viewer: &Viewer, cell: Cell) -> Option<TableResult>
    requires { IsPlaced cell }
    ensures { result ≡ allowed_at state.now viewer.now cell }
{
    if decide(state.public(), viewer, Fact::Result(cell)).is_some() {
        return None;
    }
    match result_of(&state.cell(cell)) {
        Some(result) => Some(TableResult { cell, result }),
        None => None,
    }
}

/// Puts all results on a board, whoever asks, in place of what was there, for which there is room.
pub fn put_results(state: &State, board: u8, results: &mut Vec<TableResult>)
    requires room { most_tables ≤ vec_capacity results.old }
    ensures results { results.new.items ≡ live_results state.now board }
    ensures cells { All (λ found. IsCell state.now.public.movement found.cell) results.new.items }
    ensures few { vec_len results.new ≤ most_tables }
    ensures room { most_tables ≤ vec_capacity results.new }
{
    put_live(state, board, results);
}

/// Puts all results on a board in place of what was there.
#[tactic(auto, unfolding(crate::specs::Results::live_results))]
fn put_live(state: &State, board: u8, results: &mut Vec<TableResult>)
    requires room { most_tables ≤ vec_capacity results.old }
    ensures results { results.new.items ≡ live_results state.now board }
    ensures few { vec_len results.new ≤ most_tables }
    ensures room { most_tables ≤ vec_capacity results.new }
{
    let tables = state.public().movement.tables();
    results.clear();
    for below in 0..tables {
        put_found(results, live_result(state, below + 1, board));
    }
}

/// Adds an item, where there is one, for which there is room.
fn put_found<T: Copy + Drop>(items: &mut Vec<T>, found: Option<T>)
    requires { vec_len items.old < vec_capacity items.old }
    ensures items { items.new.items ≡ items.old.items ++ cons_option found [] }
    ensures few { vec_len items.new ≤ vec_len items.old + 1 }
    ensures capacity { vec_capacity items.old ≤ vec_capacity items.new }
{
    if let Some(item) = found {
        put_item(items, item);
    }
}

/// The result of a table on a board, where there is one.
#[tactic(auto, using(crate::proofs::LiveLemmas::unscheduled, crate::proofs::LiveLemmas::scheduled))]
fn live_result(state: &State, table: u8, board: u8) -> Option<TableResult>
    ensures { result ≡ live_result state.now board table }
{
    match state.public().movement.cell(table, board) {
        Some(cell) => live_at(state, cell),
        None => None,
    }
}

/// The result of a cell, where there is one.
fn live_at(state: &State, cell: Cell) -> Option<TableResult>
    requires { IsPlaced cell }
    ensures { result ≡ option_map (result_at cell) (result_of (cell_at state.now cell)) }
{
    match result_of(&state.cell(cell)) {
        Some(result) => Some(TableResult { cell, result }),
        None => None,
    }
}
