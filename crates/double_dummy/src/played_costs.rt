ghost use Rattle.std.specs.Prelude.{◌≡◌, ◌≢◌, ◌≤◌, ℕ, [], Some, None, Err, IfOk, IfErr, OnErr};
ghost use Rattle.cards.specs.Play.{start};
ghost use Rattle.solver_results.specs.PlayAnswer.{answer_for_play};
ghost use Rattle.double_dummy.specs.declared.error.SolveError.TheVariants.{OutOfBudget, OutOfMemory};
ghost use Rattle.cards.specs.DoubleDummy.{first_illegal};

use crate::budget::Budget;
use crate::card_costs::costs_from;
use crate::error::{CostsError, SolveError};
use cards::{Deal, Play};
use scoring::Contract;
use solver_results::{PlayAnswer, PlayCosts};
use std::alloc::Global;

/// What each card of a play costs, or which is the first that is not legal, kept with the deal, contract and play.
pub fn play_costs(
    alloc: Global,
    deal: Deal,
    contract: Contract,
    play: &Play,
    budget: &mut Budget,
) -> Result<PlayCosts, SolveError>
    ensures held { IfOk result (λ costs. costs ≡ record { deal = deal; contract = contract; play = play.now }) }
    ensures spent { budget.new ≤ budget.old }
    ensures out_of_budget { IfErr result (λ refusal. refusal ≡ OutOfBudget → budget.new ≡ 0) }
    ensures out_of_memory { IfErr result (λ refusal. refusal ≡ OutOfMemory → budget.new ≡ budget.old) }
    ensures not_a_play { (number : ℕ) →
        first_illegal 1 (start deal contract.strain contract.declarer) play.now ≡ Some number →
        OnErr result ⊥ × (budget.new ≡ budget.old) }
    ensures empty { play.now ≡ [] → OnErr result ⊥ × (budget.new ≡ budget.old) }
    ensures no_budget { budget.old ≡ 0 → play.now ≢ [] →
        first_illegal 1 (start deal contract.strain contract.declarer) play.now ≡ None → result ≡ Err OutOfBudget }
{
    let answer = match costs_from(
        alloc,
        deal,
        contract.strain,
        contract.declarer,
        play.as_slice(),
        budget,
    ) {
        Ok(costs) => PlayAnswer::Costs(costs),
        Err(CostsError::NotAPlay(number)) => PlayAnswer::NotAPlay(number),
        Err(CostsError::OutOfBudget) => return Err(SolveError::OutOfBudget),
        Err(CostsError::OutOfMemory) => return Err(SolveError::OutOfMemory),
    };
    Ok(PlayCosts::new(deal, contract, *play, answer))
}
