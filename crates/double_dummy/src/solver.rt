ghost use Rattle.std.specs.Prelude.{◌≡◌, ◌<◌, ◌≤◌, Ok, Err, IfOk, IfErr};
ghost use Rattle.cards.specs.Play.{cards_left};
ghost use Rattle.double_dummy.specs.declared.error.SolveError.TheVariants.{OutOfBudget, OutOfMemory};
ghost use Rattle.cards.specs.DoubleDummy.{double_dummy};

use crate::asking::value;
use crate::budget::Budget;
use crate::error::SolveError;
use cards::Position;
use position_patterns::{DealPatterns, Holders, Memory};
use std::alloc::Global;

/// How many of the tricks that are left North and South take, when all four play their best with all cards seen.
pub fn solve(alloc: Global, position: &Position, budget: &mut Budget) -> Result<u8, SolveError>
    ensures tricks { IfOk result (λ tricks. tricks ≡ double_dummy position.now) }
    ensures spent { budget.new ≤ budget.old }
    ensures out_of_budget { IfErr result (λ refusal. refusal ≡ OutOfBudget → budget.new ≡ 0) }
    ensures out_of_memory { IfErr result (λ refusal. refusal ≡ OutOfMemory → budget.new ≡ budget.old) }
    ensures no_cards { cards_left position.now ≡ 0 → (result ≡ Ok 0) × (budget.new ≡ budget.old) }
    ensures no_budget { 0 < cards_left position.now → budget.old ≡ 0 → result ≡ Err OutOfBudget }
{
    let tricks_left = position.tricks_left();
    if tricks_left == 0 {
        return Ok(0);
    }
    if budget.left() == 0 {
        return Err(SolveError::OutOfBudget);
    }
    let Ok(patterns) = DealPatterns::new(alloc, &Holders::of(position)) else {
        return Err(SolveError::OutOfMemory);
    };
    let Ok(mut memory) = Memory::new(alloc, tricks_left) else {
        return Err(SolveError::OutOfMemory);
    };
    let guess = tricks_left / 2 + 1;
    let Ok(tricks) = value(position, guess, &patterns, &mut memory, budget) else {
        return Err(SolveError::OutOfBudget);
    };
    Ok(tricks)
}
