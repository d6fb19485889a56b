ghost use Rattle.std.specs.Prelude.{◌≡◌, ◌≢◌, ◌+◌, ◌≤◌, ℕ, [], None, Some, Ok, Err, IfOk, OnOk, IfErr, OnErr, length, true};
ghost use Rattle.std.specs.FinSet as set;
ghost use Rattle.cards.specs.Hands.{IsDeal};
ghost use Rattle.cards.specs.Play.{IsApart, IsPosition, start, legal, cards_left};
ghost use Rattle.position_patterns.specs.Remainder.{IsLeftOf};
ghost use Rattle.double_dummy.specs.Played.{IsPlayed};
ghost use Rattle.double_dummy.specs.declared.error.CostsError.TheVariants.{NotAPlay, OutOfBudget, OutOfMemory};
ghost use Rattle.cards.specs.DoubleDummy.{double_dummy, cost_list, first_illegal};

use crate::asking::value;
use crate::budget::{Budget, BudgetSpent};
use crate::error::CostsError;
use cards::{Card, Deal, Position};
use position_patterns::{DealPatterns, Holders, Memory};
use scoring::Contract;
use solver_results::Costs;
use std::alloc::Global;
use table_terms::{Place, Side, Strain};

/// What each card of a play costs the side that plays it: the tricks that the side takes less, when all play their best
/// before and after it.
pub fn costs(
    alloc: Global,
    deal: Deal,
    contract: Contract,
    play: &[Card],
    budget: &mut Budget,
) -> Result<Costs, CostsError>
    ensures costs { IfOk result (λ costs. costs ≡ cost_list (start deal contract.strain contract.declarer) play.now) }
    ensures legal { OnOk result (first_illegal 1 (start deal contract.strain contract.declarer) play.now ≡ None) }
    ensures not_a_play { (number : ℕ) →
        first_illegal 1 (start deal contract.strain contract.declarer) play.now ≡ Some number →
        (result ≡ Err (NotAPlay number)) × (budget.new ≡ budget.old) }
    ensures first { IfErr result (λ refusal. (number : ℕ) → refusal ≡ NotAPlay number →
        first_illegal 1 (start deal contract.strain contract.declarer) play.now ≡ Some number) }
    ensures spent { budget.new ≤ budget.old }
    ensures out_of_budget { IfErr result (λ refusal. refusal ≡ OutOfBudget → budget.new ≡ 0) }
    ensures out_of_memory { IfErr result (λ refusal. refusal ≡ OutOfMemory → budget.new ≡ budget.old) }
    ensures empty { play.now ≡ [] → (result ≡ Ok []) × (budget.new ≡ budget.old) }
    ensures no_budget { budget.old ≡ 0 → play.now ≢ [] →
        first_illegal 1 (start deal contract.strain contract.declarer) play.now ≡ None → result ≡ Err OutOfBudget }
{
    costs_from(
        alloc,
        deal,
        contract.strain,
        contract.declarer,
        play,
        budget,
    )
}

/// The same, where the contract's strain and declarer are known.
pub fn costs_from(
    alloc: Global,
    deal: Deal,
    strain: Strain,
    declarer: Place,
    play: &[Card],
    budget: &mut Budget,
) -> Result<Costs, CostsError>
    ensures costs { IfOk result (λ costs. costs ≡ cost_list (start deal strain declarer) play.now) }
    ensures legal { OnOk result (first_illegal 1 (start deal strain declarer) play.now ≡ None) }
    ensures not_a_play { (number : ℕ) →
        first_illegal 1 (start deal strain declarer) play.now ≡ Some number →
        (result ≡ Err (NotAPlay number)) × (budget.new ≡ budget.old) }
    ensures first { IfErr result (λ refusal. (number : ℕ) → refusal ≡ NotAPlay number →
        first_illegal 1 (start deal strain declarer) play.now ≡ Some number) }
    ensures spent { budget.new ≤ budget.old }
    ensures out_of_budget { IfErr result (λ refusal. refusal ≡ OutOfBudget → budget.new ≡ 0) }
    ensures out_of_memory { IfErr result (λ refusal. refusal ≡ OutOfMemory → budget.new ≡ budget.old) }
    ensures empty { play.now ≡ [] → (result ≡ Ok []) × (budget.new ≡ budget.old) }
    ensures no_budget { budget.old ≡ 0 → play.now ≢ [] →
        first_illegal 1 (start deal strain declarer) play.now ≡ None → result ≡ Err OutOfBudget }
{
    let start = Position::start(deal, strain, declarer);
    if let Some(number) = first_illegal(&start, play) {
        return Err(CostsError::NotAPlay(number));
    }
    if play.is_empty() {
        return Ok(Costs::none());
    }
    if budget.left() == 0 {
        return Err(CostsError::OutOfBudget);
    }
    cost_play(alloc, &Holders::dealt(deal), &start, play, budget)
}

/// The number, from 1, of the first card that is not legal.
fn first_illegal(start: &Position, play: &[Card]) -> Option<usize>
    ensures { result ≡ first_illegal 1 start.now play.now }
{
    let mut position = *start;
    for (i, card) in play.iter().enumerate() {
        if !position.legal(*card) {
            return Some(i + 1);
        }
        position = position.after(*card);
    }
    None
}

/// The costs of a play's cards, with room for what the search remembers.
fn cost_play(
    alloc: Global,
    dealt: &Holders,
    start: &Position,
    play: &[Card],
    budget: &mut Budget,
) -> Result<Costs, CostsError>
    requires play { first_illegal 1 start.now play.now ≡ None }
    requires hands { dealt.now ≡ start.now.hands }
    requires apart { IsApart dealt.now }
    requires cards { cards_left start.now ≡ 52 }
    requires table { start.now.table ≡ [] }
    ensures costs { IfOk result (λ costs. costs ≡ cost_list start.now play.now) }
    ensures refusal { IfErr result (λ refusal. (number : ℕ) → refusal ≢ NotAPlay number) }
    ensures out_of_budget { IfErr result (λ refusal. refusal ≡ OutOfBudget → budget.new ≡ 0) }
    ensures out_of_memory { IfErr result (λ refusal. refusal ≡ OutOfMemory → budget.new ≡ budget.old) }
    ensures spent { budget.new ≤ budget.old }
{
    let Ok(patterns) = DealPatterns::new(alloc, dealt) else {
        return Err(CostsError::OutOfMemory);
    };
    let Ok(mut memory) = Memory::new(alloc, 13) else {
        return Err(CostsError::OutOfMemory);
    };
    cost_each(alloc, start, play, &patterns, &mut memory, budget)
}

/// The costs of the cards, one after another.
fn cost_each(
    alloc: Global,
    start: &Position,
    play: &[Card],
    patterns: &DealPatterns,
    memory: &mut Memory,
    budget: &mut Budget,
) -> Result<Costs, CostsError>
    requires play { first_illegal 1 start.now play.now ≡ None }
    requires dealt { IsLeftOf patterns.now.whole start.now.hands }
    requires cards { cards_left start.now ≡ 52 }
    requires table { start.now.table ≡ [] }
    ensures costs { IfOk result (λ costs. costs ≡ cost_list start.now play.now) }
    ensures refusal { IfErr result (λ refusal. (number : ℕ) → refusal ≢ NotAPlay number) }
    ensures out_of_budget { IfErr result (λ refusal. refusal ≡ OutOfBudget → budget.new ≡ 0) }
    ensures out_of_memory { IfErr result (λ refusal. refusal ≡ OutOfMemory → budget.new ≡ budget.old) }
    ensures spent { budget.new ≤ budget.old }
{
    let Ok(mut numbers) = Vec::with_capacity(alloc, play.len()) else {
        return Err(CostsError::OutOfMemory);
    };
    let Ok(mut before) = value(start, 7, patterns, memory, budget) else {
        return Err(CostsError::OutOfBudget);
    };
    let mut position = *start;
    for card in play {
        let Ok(played) = play_card(&position, *card, before, patterns, memory, budget) else {
            return Err(CostsError::OutOfBudget);
        };
        numbers.push_reserved(played.cost);
        position = played.position;
        before = played.tricks;
    }
    Ok(Costs::of(&numbers))
}

/// A card that was played: the position after it, the tricks that North and South take from there, and its cost.
#[derive(Clone, Copy)]
pub struct Played {
    pub position: Position,
    pub tricks: u8,
    pub cost: u8,
}

/// Plays a card.
fn play_card(
    position: &Position,
    card: Card,
    before: u8,
    patterns: &DealPatterns,
    memory: &mut Memory,
    budget: &mut Budget,
) -> Result<Played, BudgetSpent>
    requires legal { set.contains (legal position.now) card ≡ true }
    requires dealt { IsLeftOf patterns.now.whole position.now.hands }
    requires valid { IsPosition position.now }
    requires few { cards_left position.now + length position.now.table ≤ 52 }
    requires before { before ≡ double_dummy position.now }
    ensures played { IfOk result (IsPlayed position.now card) }
    ensures err { OnErr result (budget.new ≡ 0) }
    ensures spent { budget.new ≤ budget.old }
{
    let next = position.after(card);
    let Ok(tricks) = value(&next, before, patterns, memory, budget) else {
        return Err(BudgetSpent);
    };
    let with_card = position.point(card) + tricks;
    let cost = match position.to_play().side() {
        Side::NorthSouth => before.saturating_sub(with_card),
        Side::EastWest => with_card.saturating_sub(before),
    };
    Ok(Played {
        position: next,
        tricks,
        cost,
    })
}
