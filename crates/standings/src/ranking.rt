ghost use Rattle.std.specs.Prelude.{◌≡◌, ◌≤◌, ◌<◌, ◌*◌, ◌-◌, ◌++◌, List, get_or, map, length, IfOk, OnOk};
ghost use Rattle.movement.specs.Movement.{most_tables};
ghost use Rattle.scoring.specs.declared.standing.Standing.{Standing};
ghost use Rattle.std.specs.List.{range_with_len, insert};
ghost use Rattle.table_terms.specs.declared.pair.Pair.{Pair};
ghost use Rattle.standings.specs.Ranking.{most_results, earned_by, top_for, standing_of, pairs_on, placed, ranked, ranking_of};

use crate::earning::Earning;
use movement::Movement;
use scoring::{Standing, rank_order};
use std::alloc::{AllocError, Global};
use std::cmp::Ordering;
use table_terms::{Pair, Side};

/// The pairs of a movement in the order in which they rank, by what all results earn.
pub fn ranking_of(
    alloc: Global,
    movement: &Movement,
    earnings: &[Earning],
) -> Result<Vec<Standing>, AllocError>
    requires few { length earnings.now ≤ most_results }
    ensures { IfOk result (λ standings. standings.items ≡ ranking_of movement.now earnings.now) }
{
    let mut standings = Vec::with_capacity(alloc, 2 * usize::from(Movement::MOST_TABLES))?;
    place_side(&mut standings, earnings, movement, Side::EastWest)?;
    place_side(&mut standings, earnings, movement, Side::NorthSouth)?;
    Ok(standings)
}

/// Standings in the order in which their pairs rank.
pub fn ranked(alloc: Global, standings: &[Standing]) -> Result<Vec<Standing>, AllocError>
    ensures { IfOk result (λ all. all.items ≡ ranked standings.now) }
{
    let mut all = Vec::with_capacity(alloc, standings.len())?;
    for taken in 0..standings.len() {
        place(&mut all, from_the_end(standings, taken))?;
    }
    Ok(all)
}

/// The standing after which so many others come.
fn from_the_end(standings: &[Standing], others: usize) -> Standing
    requires { others < length standings.now }
    ensures { (d : Standing) → result ≡ get_or standings.now (length standings.now - 1 - others) d }
{
    standings[standings.len() - 1 - others]
}

/// Puts the pairs of a movement that are named for a side in their places among those that are in their order.
fn place_side(
    standings: &mut Vec<Standing>,
    earnings: &[Earning],
    movement: &Movement,
    side: Side,
) -> Result<(), AllocError>
    requires few { length earnings.now ≤ most_results }
    ensures { OnOk result ((others : List Pair) →
        standings.old.items ≡ ranked (map (standing_of earnings.now) others) →
        standings.new.items ≡ ranked (map (standing_of earnings.now)
        (pairs_on movement.now side 1 most_tables ++ others))) }
{
    for before in 0..Movement::MOST_TABLES {
        let pair = Pair {
            side,
            number: Movement::MOST_TABLES - before,
        };
        if movement.has_pair(pair) {
            place(standings, standing_of(earnings, pair))?;
        }
    }
    Ok(())
}

/// How a pair stands by what all results earn.
#[tactic(auto, unfolding(crate::specs::Ranking::standing_of))]
pub fn standing_of(earnings: &[Earning], pair: Pair) -> Standing
    requires { length earnings.now ≤ most_results }
    ensures standing { result ≡ standing_of earnings.now pair }
    ensures few_earned { result.earned ≤ 4294967295 * length earnings.now }
    ensures few_tops { result.tops ≤ 4294967295 * length earnings.now }
{
    let mut earned = 0;
    let mut tops = 0;
    for earning in earnings {
        earned += u64::from(earned_by(pair, earning));
        tops += u64::from(top_for(pair, earning));
    }
    Standing { pair, earned, tops }
}

/// What a pair earns by one result.
#[tactic(auto, using(movement::proofs::ScheduleTests::pair_decides))]
fn earned_by(pair: Pair, earning: &Earning) -> u32
    ensures { result ≡ earned_by pair earning.now }
{
    if earning.north_south == pair {
        earning.for_north_south
    } else if earning.east_west == pair {
        earning.for_east_west
    } else {
        0
    }
}

/// What a pair could have earned by it.
#[tactic(auto, using(movement::proofs::ScheduleTests::pair_decides))]
fn top_for(pair: Pair, earning: &Earning) -> u32
    ensures { result ≡ top_for pair earning.now }
{
    if earning.north_south == pair || earning.east_west == pair {
        earning.top
    } else {
        0
    }
}

/// Puts a standing in its place among others that are in their order.
fn place(standings: &mut Vec<Standing>, standing: Standing) -> Result<(), AllocError>
    ensures { OnOk result (standings.new.items ≡ placed standing standings.old.items) }
{
    let place = place_among(standings, standing);
    standings.insert(place, standing)?;
    Ok(())
}

/// The place of a standing among others that are in their order.
fn place_among(standings: &[Standing], standing: Standing) -> usize
    ensures within { result ≤ length standings.now }
    ensures place { insert standings.now result standing ≡ placed standing standings.now }
{
    for (place, other) in standings.iter().enumerate() {
        if rank_order(standing, *other) == Ordering::Less {
            return place;
        }
    }
    standings.len()
}
