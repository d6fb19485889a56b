ghost use Rattle.table_terms.specs.Place.{side_of};
ghost use Rattle.cards.specs.Play.{after, legal, point, to_play, trick_for};
ghost use Rattle.double_dummy_laws.specs.Found.{wanted_answer};
ghost use Rattle.cards.specs.Play.{cards_left};
ghost use Rattle.position_patterns.specs.Remainder.{IsLeftOf};
ghost use Rattle.double_dummy_laws.specs.Found.{Claims, IsFound, IsOwned, IsTight};
ghost use Rattle.double_dummy_laws.specs.Renaming.{Ownership, knowing};
ghost use Rattle.double_dummy.specs.Search.{HasLive};
ghost use Rattle.std.specs.Prelude.{◌≡◌, ◌+◌, ◌*◌, ◌<◌, ◌≤◌, [], length, true, IfOk, IfSome, OnErr};
ghost use Rattle.std.specs.FinSet as set;
ghost use Rattle.cards.specs.declared.card.Card.{Card};

use crate::budget::{Budget, BudgetSpent};
use crate::order::Order;
use crate::sure::{sure_tricks, winning_card};
use crate::{run, trick};
use cards::{Card, Hand, Position, Trick};
use position_patterns::{DealPatterns, Finding, Holders, Memory};
use table_terms::{Place, Side};

/// The known cards with those that decided, and the whole run of a card of them.
fn learnt(known: Hand, decisive: Hand, run: Hand) -> Hand
    ensures known { (card : Card) → set.contains known card ≡ true → set.contains result card ≡ true }
    ensures decisive { (card : Card) → set.contains decisive card ≡ true → set.contains result card ≡ true }
    ensures run { (one other : Card) → set.contains decisive one ≡ true → set.contains run one ≡ true →
        set.contains run other ≡ true → set.contains result other ≡ true }
{
    let all = known.union(decisive);
    if decisive.is_disjoint(run) {
        all
    } else {
        all.union(run)
    }
}

/// Whether North and South take so many tricks, from the memory where it is remembered. The live cards, those in the
/// hands and on the table, are handed on from card to card: they are the same until the trick is over.
#[inline(always)]
#[cycle(search)]
pub fn search(
    position: &Position,
    live: Hand,
    target: u8,
    patterns: &DealPatterns,
    memory: &mut Memory,
    budget: &mut Budget,
) -> Result<Finding, BudgetSpent>
    requires left { IsLeftOf patterns.now.whole position.now.hands }
    requires live { HasLive position.now live }
    ensures found { IfOk result (λ found. IsFound position.now target found.known found.holds) }
    ensures err { OnErr result (budget.new ≡ 0) }
    ensures spent { budget.new ≤ budget.old }
{
    if target == 0 {
        return Ok(Finding {
            holds: true,
            known: Hand::new(),
        });
    }
    if position.trick() == Trick::Empty {
        return at_start(position, target, patterns, memory, budget);
    }
    if let Trick::One(led) = position.trick() {
        if let Some(found) = winning_card(position, led, target) {
            let Ok(()) = budget.visit() else {
                return Err(BudgetSpent);
            };
            return Ok(found);
        }
    }
    explore(position, live, 0, target, patterns, memory, budget)
}

/// The same, at the beginning of a trick. It stands apart, since within a trick no visit should pay for its locals.
#[inline(never)]
#[cycle(search)]
fn at_start(
    position: &Position,
    target: u8,
    patterns: &DealPatterns,
    memory: &mut Memory,
    budget: &mut Budget,
) -> Result<Finding, BudgetSpent>
    requires target { 0 < target }
    requires start { position.now.table ≡ [] }
    requires left { IsLeftOf patterns.now.whole position.now.hands }
    ensures found { IfOk result (λ found. IsFound position.now target found.known found.holds) }
    ensures err { OnErr result (budget.new ≡ 0) }
    ensures spent { budget.new ≤ budget.old }
{
    let tricks_left = position.tricks_left();
    if tricks_left < target {
        return Ok(Finding {
            holds: false,
            known: Hand::new(),
        });
    }
    if let Some(found) = at_once(position, target, tricks_left) {
        // a visit too: the number of a deal takes two answers at least, so that none is found with one visit
        let Ok(()) = budget.visit() else {
            return Err(BudgetSpent);
        };
        return Ok(found);
    }
    let holders = Holders::of(position);
    let pattern = patterns.pattern(&holders);
    if let Some(found) = memory.find(position, &holders, &pattern, target) {
        return Ok(found);
    }
    let hash = pattern.hash(position.leader(), position.strain());
    let live = run::live(position);
    let Ok(found) = explore(position, live, hash, target, patterns, memory, budget) else {
        return Err(BudgetSpent);
    };
    memory.store(position, &holders, &pattern, target, &found);
    Ok(found)
}

/// The same, by trying the cards. The hash of its pattern is asked for at the beginning of a trick alone, and nothing
/// but the order of leads depends on it.
#[cycle(search)]
fn explore(
    position: &Position,
    live: Hand,
    hash: u64,
    target: u8,
    patterns: &DealPatterns,
    memory: &mut Memory,
    budget: &mut Budget,
) -> Result<Finding, BudgetSpent>
    requires target { 0 < target }
    requires left { IsLeftOf patterns.now.whole position.now.hands }
    requires live { HasLive position.now live }
    ensures found { IfOk result (λ found. IsFound position.now target found.known found.holds) }
    ensures err { OnErr result (budget.new ≡ 0) }
    ensures spent { budget.new ≤ budget.old }
    ensures visit { (card : Card) → set.contains (legal position.now) card ≡ true → 0 < budget.old →
        budget.new < budget.old }
{
    let trick = position.trick();
    let player = trick.turn(position.leader());
    let mine = position.hand(player);
    let playable = trick.legal(mine);
    let mut untried = playable;
    if untried.is_empty() {
        return Ok(Finding {
            holds: false,
            known: Hand::new(),
        });
    }
    let Ok(()) = budget.visit() else {
        return Err(BudgetSpent);
    };
    if let Some(card) = run::only(playable) {
        return forced(position, live, card, target, patterns, memory, budget);
    }
    let wanted = wants(player);
    let others = run::others(position, live, mine);
    let mut order = Order::new();
    order.weigh(position, hash, player, others, playable, memory);
    let mut known = Hand::new();
    while let Some(card) = order.best(untried) {
        let next = position.after(card);
        let rest = target - point(position, &next);
        let Ok(found) = search(&next, live, rest, patterns, memory, budget) else {
            return Err(BudgetSpent);
        };
        let decisive = found.known.union(trick::decisive(position, card, &next));
        if found.holds == wanted {
            remember_lead(memory, trick, hash, player, mine, card);
            return Ok(Finding {
                holds: wanted,
                known: decisive,
            });
        }
        let run = run::run_of(position, others, playable, card);
        known = learnt(known, decisive, run);
        let rest = untried.difference(run);
        let spoken = run::spoken_for(position, playable, card, decisive, rest);
        untried = untried.difference(run.union(spoken));
    }
    Ok(Finding {
        holds: !wanted,
        known,
    })
}

/// Remembers a card that decided, if it was led: it is tried early the next time.
#[inline(always)]
fn remember_lead(
    memory: &mut Memory,
    trick: Trick,
    hash: u64,
    player: Place,
    mine: Hand,
    card: Card,
) {
    if trick == Trick::Empty {
        memory.push_lead(player, mine.len(), hash, card);
    }
}

/// The same, where the player has no choice.
#[cycle(search)]
fn forced(
    position: &Position,
    live: Hand,
    card: Card,
    target: u8,
    patterns: &DealPatterns,
    memory: &mut Memory,
    budget: &mut Budget,
) -> Result<Finding, BudgetSpent>
    requires target { 0 < target }
    requires left { IsLeftOf patterns.now.whole position.now.hands }
    requires live { HasLive position.now live }
    requires legal { set.contains (legal position.now) card ≡ true }
    requires only { (other : Card) → set.contains (legal position.now) other ≡ true → card ≡ other }
    ensures found { IfOk result (λ found. IsFound position.now target found.known found.holds) }
    ensures err { OnErr result (budget.new ≡ 0) }
    ensures spent { budget.new ≤ budget.old }
{
    let next = position.after(card);
    let rest = target - point(position, &next);
    let Ok(found) = search(&next, live, rest, patterns, memory, budget) else {
        return Err(BudgetSpent);
    };
    let decisive = found.known.union(trick::decisive(position, card, &next));
    Ok(Finding {
        holds: found.holds,
        known: decisive,
    })
}

/// The same, where no card has to be tried.
fn at_once(position: &Position, target: u8, tricks_left: u8) -> Option<Finding>
    requires start { position.now.table ≡ [] }
    requires left { 4 * tricks_left ≡ cards_left position.now + length position.now.table }
    requires target { 0 < target }
    requires some { target ≤ tricks_left }
    ensures { IfSome result (λ found. IsFound position.now target found.known found.holds) }
{
    // the last trick is played sooner than it is counted or remembered
    if tricks_left <= 1 {
        return last_trick(position, target);
    }
    sure_tricks(position, target, tricks_left)
}

/// The same, of the last trick: each player has one card, so that nothing more than who wins it is looked at.
fn last_trick(position: &Position, target: u8) -> Option<Finding>
    requires target { 0 < target }
    requires start { position.now.table ≡ [] }
    requires few { cards_left position.now ≤ 4 }
    ensures { IfSome result (λ found. IsFound position.now target found.known found.holds) }
{
    let leader = position.leader();
    let second = leader.left();
    let third = second.left();
    let fourth = third.left();
    let a = run::only(position.hand(leader))?;
    let b = run::only(position.hand(second))?;
    let c = run::only(position.hand(third))?;
    let d = run::only(position.hand(fourth))?;
    let winner = cards::winner(position.strain(), leader, a, b, c, d);
    let rest = target - trick_for(winner.side());
    Some(Finding {
        holds: rest == 0,
        known: trick::decisive_of(leader, winner, a, b, c, d),
    })
}

/// 1 where the card that was played to a position completed a trick that North and South won, else 0: its winner is
/// next to lead.
fn point(position: &Position, next: &Position) -> u8
    ensures point { (card : Card) → next.now ≡ after position.now card → result ≡ point position.now card }
    ensures small { result ≤ 1 }
{
    let Trick::Three(_, _, _) = position.trick() else {
        return 0;
    };
    trick_for(next.leader().side())
}

/// A trick that a side took, counted for North and South.
fn trick_for(side: Side) -> u8
    ensures trick { result ≡ trick_for side }
    ensures small { result ≤ 1 }
{
    match side {
        Side::NorthSouth => 1,
        Side::EastWest => 0,
    }
}

/// The answer that a player would rather have to whether North and South take so many tricks.
fn wants(player: Place) -> bool
    ensures { result ≡ wanted_answer (side_of player) }
{
    match player.side() {
        Side::NorthSouth => true,
        Side::EastWest => false,
    }
}
