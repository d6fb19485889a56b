ghost use Rattle.std.specs.Prelude.{◌≡◌, ◌≤◌, ◌+◌, ◌-◌, ◌*◌, ◌++◌, length, All, OnOk, vec_capacity, vec_len};
ghost use Rattle.movement.specs.Movement.{IsCell, most_tables};
ghost use Rattle.standings.specs.Ranking.{top_of, earned_north_south, earned_east_west, earning_of, earnings_of};

use crate::cell_result::CellResult;
use crate::earning::Earning;
use crate::push::put_copy;
use crate::table_result::TableResult;
use crate::traveller::{put_scores, scores_of};
use crate::units::units_of_score;
use movement::Movement;
use scoring::ns_score;
use std::alloc::{AllocError, Global};
use table_terms::Vulnerability;

/// Adds what the results of a board earn.
#[tactic(auto, unfolding(crate::specs::Ranking::earnings_of))]
pub fn add_earnings(
    alloc: Global,
    movement: &Movement,
    vulnerability: Vulnerability,
    results: &[TableResult],
    earnings: &mut Vec<Earning>,
) -> Result<(), AllocError>
    requires few { length results.now ≤ most_tables }
    requires cells { All (λ found. IsCell movement.now found.cell) results.now }
    ensures earnings { OnOk result (earnings.new.items ≡
        earnings.old.items ++ earnings_of movement.now vulnerability results.now) }
    ensures many { OnOk result (vec_len earnings.new ≡ vec_len earnings.old + length results.now) }
{
    let scores = scores_of(alloc, vulnerability, results)?;
    for found in results {
        earnings.push(earning_of(movement, vulnerability, &scores, found))?;
    }
    Ok(())
}

/// Puts what the results of a board earn in place of what was there, for which there is room for each of them and its
/// score.
#[tactic(auto, unfolding(crate::specs::Ranking::earnings_of))]
pub fn put_earnings(
    movement: &Movement,
    vulnerability: Vulnerability,
    results: &[TableResult],
    scores: &mut Vec<i32>,
    earnings: &mut Vec<Earning>,
)
    requires few { length results.now ≤ most_tables }
    requires cells { All (λ found. IsCell movement.now found.cell) results.now }
    requires score_room { most_tables ≤ vec_capacity scores.old }
    requires room { most_tables ≤ vec_capacity earnings.old }
    ensures earnings { earnings.new.items ≡ earnings_of movement.now vulnerability results.now }
    ensures many { vec_len earnings.new ≡ length results.now }
    ensures score_room { most_tables ≤ vec_capacity scores.new }
    ensures room { most_tables ≤ vec_capacity earnings.new }
{
    put_scores(vulnerability, results, scores);
    earnings.clear();
    for found in results {
        put_copy(
            earnings,
            &earning_of(movement, vulnerability, scores, found),
        );
    }
}

/// What a result earns for its two pairs.
fn earning_of(
    movement: &Movement,
    vulnerability: Vulnerability,
    scores: &[i32],
    found: &TableResult,
) -> Earning
    requires few { length scores.now ≤ most_tables }
    requires cell { IsCell movement.now found.now.cell }
    ensures { result ≡ earning_of movement.now vulnerability scores.now found.now }
{
    let for_north_south = earned_north_south(vulnerability, scores, &found.result);
    Earning {
        north_south: movement.north_south_at(found.cell),
        east_west: movement.east_west_at(found.cell),
        for_north_south,
        for_east_west: earned_east_west(for_north_south, scores, &found.result),
        top: 100 * top_of(scores),
    }
}

/// What a result earns for North-South, in hundredths of a unit.
fn earned_north_south(vulnerability: Vulnerability, scores: &[i32], found: &CellResult) -> u32
    requires { length scores.now ≤ most_tables }
    ensures { result ≡ earned_north_south vulnerability scores.now found.now }
{
    match found {
        CellResult::Confirmed(outcome) => {
            100 * units_of_score(scores, ns_score(*outcome, vulnerability))
        }
        CellResult::Ruled { north_south, .. } => part_of_top(*north_south, scores),
    }
}

/// What a result earns for East-West, in hundredths of a unit: of what was played, the rest of the top, by what it
/// earns for North-South.
fn earned_east_west(for_north_south: u32, scores: &[i32], found: &CellResult) -> u32
    requires { length scores.now ≤ most_tables }
    ensures { (vulnerability : Vulnerability) → for_north_south ≡ earned_north_south vulnerability scores.now found.now →
        result ≡ earned_east_west vulnerability scores.now found.now }
{
    match found {
        CellResult::Confirmed(_) => (100 * top_of(scores)).saturating_sub(for_north_south),
        CellResult::Ruled { east_west, .. } => part_of_top(*east_west, scores),
    }
}

/// A percentage of a top, in hundredths of a unit.
#[tactic(auto, using(crate::proofs::EarningLemmas::part_fits))]
fn part_of_top(percentage: u8, scores: &[i32]) -> u32
    requires { length scores.now ≤ most_tables }
    ensures { result ≡ percentage * top_of scores.now }
{
    u32::from(percentage) * top_of(scores)
}

/// The most units that a result can earn among so many that were played.
fn top_of(scores: &[i32]) -> u32
    requires { length scores.now ≤ most_tables }
    ensures top { result ≡ top_of scores.now }
    ensures few { result ≤ 2 * (most_tables - 1) }
{
    2 * (scores.len() as u32).saturating_sub(1)
}
