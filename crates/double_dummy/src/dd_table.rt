ghost use Rattle.std.specs.Prelude.{◌≡◌, ◌<◌, ◌≤◌, Ok, Err, IfOk, IfErr, OnErr};
ghost use Rattle.double_dummy.specs.declared.error.SolveError.TheVariants.{OutOfBudget, OutOfMemory};
ghost use Rattle.position_patterns.specs.Remainder.{IsLeftOf};
ghost use Rattle.cards.specs.DoubleDummy.{declarer_tricks, tricks_for};
ghost use Rattle.solver_results.specs.DdTable.{IsTricksIn};

use crate::asking::value;
use crate::budget::{Budget, BudgetSpent};
use crate::error::SolveError;
use crate::likely::likely_tricks;
use cards::{Deal, Position};
use position_patterns::{DealPatterns, Holders, Memory};
use solver_results::{DdTable, DeclarerTricks};
use std::alloc::Global;
use table_terms::{Place, Side, Strain};

/// The deal's double-dummy table.
pub fn table(alloc: Global, deal: Deal, budget: &mut Budget) -> Result<DdTable, SolveError>
    ensures table { IfOk result (λ table. table ≡ deal) }
    ensures spent { budget.new ≤ budget.old }
    ensures out_of_budget { IfErr result (λ refusal. refusal ≡ OutOfBudget → budget.new ≡ 0) }
    ensures out_of_memory { IfErr result (λ refusal. refusal ≡ OutOfMemory → budget.new ≡ budget.old) }
    ensures no_budget { budget.old ≡ 0 → result ≡ Err OutOfBudget }
{
    if budget.left() == 0 {
        return Err(SolveError::OutOfBudget);
    }
    let Ok(patterns) = DealPatterns::new(alloc, &Holders::dealt(deal)) else {
        return Err(SolveError::OutOfMemory);
    };
    let Ok(mut memory) = Memory::new(alloc, 13) else {
        return Err(SolveError::OutOfMemory);
    };
    let Ok(table) = solve_strains(deal, &patterns, &mut memory, budget) else {
        return Err(SolveError::OutOfBudget);
    };
    Ok(table)
}

/// The table, strain by strain.
fn solve_strains(
    deal: Deal,
    patterns: &DealPatterns,
    memory: &mut Memory,
    budget: &mut Budget,
) -> Result<DdTable, BudgetSpent>
    requires dealt { IsLeftOf patterns.now.whole deal }
    ensures table { IfOk result (λ table. table ≡ deal) }
    ensures err { OnErr result (budget.new ≡ 0) }
    ensures spent { budget.new ≤ budget.old }
{
    let Ok(spades) = solve_strain(deal, Strain::Spades, patterns, memory, budget) else {
        return Err(BudgetSpent);
    };
    let Ok(hearts) = solve_strain(deal, Strain::Hearts, patterns, memory, budget) else {
        return Err(BudgetSpent);
    };
    let Ok(diamonds) = solve_strain(deal, Strain::Diamonds, patterns, memory, budget) else {
        return Err(BudgetSpent);
    };
    let Ok(clubs) = solve_strain(deal, Strain::Clubs, patterns, memory, budget) else {
        return Err(BudgetSpent);
    };
    let Ok(no_trump) = solve_strain(deal, Strain::NoTrump, patterns, memory, budget) else {
        return Err(BudgetSpent);
    };
    Ok(DdTable::new(deal, spades, hearts, diamonds, clubs, no_trump))
}

/// The tricks of the four declarers in a strain, who share what the search remembers. Partners mostly take as many.
fn solve_strain(
    deal: Deal,
    strain: Strain,
    patterns: &DealPatterns,
    memory: &mut Memory,
    budget: &mut Budget,
) -> Result<DeclarerTricks, BudgetSpent>
    requires dealt { IsLeftOf patterns.now.whole deal }
    ensures tricks { IfOk result (IsTricksIn deal strain) }
    ensures err { OnErr result (budget.new ≡ 0) }
    ensures spent { budget.new ≤ budget.old }
{
    memory.clear();
    let guess = likely_tricks(deal, strain);
    let Ok(north) = solve_declarer(deal, strain, Place::North, guess, patterns, memory, budget)
    else {
        return Err(BudgetSpent);
    };
    let Ok(south) = solve_declarer(deal, strain, Place::South, north, patterns, memory, budget)
    else {
        return Err(BudgetSpent);
    };
    let Ok(east) = solve_declarer(
        deal,
        strain,
        Place::East,
        tricks_for(Side::EastWest, south),
        patterns,
        memory,
        budget,
    ) else {
        return Err(BudgetSpent);
    };
    let Ok(west) = solve_declarer(deal, strain, Place::West, east, patterns, memory, budget) else {
        return Err(BudgetSpent);
    };
    Ok(DeclarerTricks {
        north,
        east,
        south,
        west,
    })
}

/// The tricks of a declarer, with a guess.
fn solve_declarer(
    deal: Deal,
    strain: Strain,
    declarer: Place,
    guess: u8,
    patterns: &DealPatterns,
    memory: &mut Memory,
    budget: &mut Budget,
) -> Result<u8, BudgetSpent>
    requires dealt { IsLeftOf patterns.now.whole deal }
    ensures tricks { IfOk result (λ tricks. tricks ≡ declarer_tricks deal strain declarer) }
    ensures err { OnErr result (budget.new ≡ 0) }
    ensures spent { budget.new ≤ budget.old }
{
    let start = Position::start(deal, strain, declarer);
    let side = declarer.side();
    let Ok(tricks) = value(&start, tricks_for(side, guess), patterns, memory, budget) else {
        return Err(BudgetSpent);
    };
    Ok(tricks_for(side, tricks))
}

/// The tricks of a side, where North and South take so many of thirteen.
fn tricks_for(side: Side, tricks: u8) -> u8
    ensures { result ≡ tricks_for side tricks }
{
    match side {
        Side::NorthSouth => tricks,
        Side::EastWest => 13u8.saturating_sub(tricks),
    }
}
