ghost use Rattle.std.specs.Prelude.{◌≡◌, ◌≤◌, length, All, IfOk, vec_capacity, vec_len};
ghost use Rattle.movement.specs.Movement.{IsCell, most_tables};
ghost use Rattle.standings.specs.declared.cell_result.CellResult.TheVariants.{Confirmed};
ghost use Rattle.standings.specs.Traveller.{row_result, result_score, scores_of, traveller_row, traveller_rows};

use crate::cell_result::CellResult;
use crate::push::{push_copy, put_found};
use crate::row_result::RowResult;
use crate::table_result::TableResult;
use crate::traveller_row::TravellerRow;
use crate::units::units_of_score;
use movement::Movement;
use scoring::{Outcome, ns_score};
use std::alloc::{AllocError, Global};
use table_terms::Vulnerability;

/// The rows of a traveller: a row for each result, in their order.
#[tactic(auto, unfolding(crate::specs::Traveller::traveller_rows))]
pub fn traveller_rows(
    alloc: Global,
    movement: &Movement,
    vulnerability: Vulnerability,
    results: &[TableResult],
) -> Result<Vec<TravellerRow>, AllocError>
    requires few { length results.now ≤ most_tables }
    requires cells { All (λ found. IsCell movement.now found.cell) results.now }
    ensures { IfOk result (λ rows. rows.items ≡ traveller_rows movement.now vulnerability results.now) }
{
    let scores = scores_of(alloc, vulnerability, results)?;
    let mut rows = Vec::with_capacity(alloc, results.len())?;
    for found in results {
        let row = traveller_row(movement, vulnerability, &scores, found);
        push_copy(&mut rows, &row)?;
    }
    Ok(rows)
}

/// The scores of the results that were played.
pub(crate) fn scores_of(
    alloc: Global,
    vulnerability: Vulnerability,
    results: &[TableResult],
) -> Result<Vec<i32>, AllocError>
    ensures scores { IfOk result (λ scores. scores.items ≡ scores_of vulnerability results.now) }
    ensures few { IfOk result (λ scores. vec_len scores ≤ length results.now) }
{
    results
        .iter()
        .filter_map(|found| result_score(vulnerability, found.result))
        .collect(alloc)
}

/// Puts the scores of the results that were played in place of what was there, for which there is room.
pub(crate) fn put_scores(
    vulnerability: Vulnerability,
    results: &[TableResult],
    scores: &mut Vec<i32>,
)
    requires few { length results.now ≤ most_tables }
    requires room { most_tables ≤ vec_capacity scores.old }
    ensures scores { scores.new.items ≡ scores_of vulnerability results.now }
    ensures few { vec_len scores.new ≤ length results.now }
    ensures room { most_tables ≤ vec_capacity scores.new }
{
    scores.clear();
    for found in results {
        put_found(scores, result_score(vulnerability, found.result));
    }
}

/// What a result scores for North-South, if it was played.
fn result_score(vulnerability: Vulnerability, found: CellResult) -> Option<i32>
    ensures { result ≡ result_score vulnerability found }
{
    match found {
        CellResult::Confirmed(outcome) => Some(ns_score(outcome, vulnerability)),
        CellResult::Ruled { .. } => None,
    }
}

/// A result with its pairs, and with its score and its units or its percentages.
fn traveller_row(
    movement: &Movement,
    vulnerability: Vulnerability,
    scores: &[i32],
    found: &TableResult,
) -> TravellerRow
    requires few { length scores.now ≤ most_tables }
    requires cell { IsCell movement.now found.now.cell }
    ensures { result ≡ traveller_row movement.now vulnerability scores.now found.now }
{
    let cell = found.cell;
    TravellerRow {
        table: cell.table,
        north_south: movement.north_south_at(cell),
        east_west: movement.east_west_at(cell),
        result: row_result(vulnerability, scores, &found.result),
    }
}

/// A result with its score and its units among the scores, or with its percentages.
fn row_result(vulnerability: Vulnerability, scores: &[i32], found: &CellResult) -> RowResult
    requires { length scores.now ≤ most_tables }
    ensures { result ≡ row_result vulnerability scores.now found.now }
{
    match found {
        CellResult::Confirmed(outcome) => played(vulnerability, scores, outcome),
        CellResult::Ruled {
            north_south,
            east_west,
        } => RowResult::Ruled {
            north_south: *north_south,
            east_west: *east_west,
        },
    }
}

/// A result that was played, with its score and its units among the scores.
fn played(vulnerability: Vulnerability, scores: &[i32], outcome: &Outcome) -> RowResult
    requires { length scores.now ≤ most_tables }
    ensures { result ≡ row_result vulnerability scores.now (Confirmed outcome.now) }
{
    let score = ns_score(*outcome, vulnerability);
    RowResult::Played {
        outcome: *outcome,
        score,
        points: units_of_score(scores, score),
    }
}
