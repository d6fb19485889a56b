//! What a condition says of a board.

ghost use Rattle.std.specs.Prelude.{◌≡◌, ◌==◌};
ghost use Rattle.std.specs.Bool.{beq};
ghost use Rattle.scoring.specs.Doubling.{times_doubled};
ghost use Rattle.query_filter.specs.Bounds.{is_between};
ghost use Rattle.query_filter.specs.Formula.{formula, formulas};
ghost use Rattle.query_filter.specs.Holds.{atom_holds, holds, all_hold, any_holds, is_contract_that, is_same_strain, is_made, table_has};
ghost use Rattle.query_filter.specs.declared.atom.Atom.TheVariants as the_atom;

use crate::atom::Atom;
use crate::board_facts::BoardFacts;
use crate::bounds::{Bounds, ScoreBounds};
use crate::condition::Condition;
use crate::trick_table::TrickTable;
use scoring::{Contract, Doubling, Outcome, ns_score};
use table_terms::{Place, Strain};

#[cycle(holds)]
pub(crate) fn holds(condition: &Condition, facts: &BoardFacts) -> bool
    ensures { result ≡ holds (formula condition.now) facts.now }
{
    match condition {
        Condition::Atom(atom) => atom_holds(*atom, facts),
        Condition::Not(other) => !holds(other, facts),
        Condition::And(members) => all_hold(members, facts),
        Condition::Or(members) => any_holds(members, facts),
    }
}

#[cycle(holds)]
fn all_hold(members: &[Condition], facts: &BoardFacts) -> bool
    ensures { result ≡ all_hold (formulas members.now) facts.now }
{
    for member in members {
        if !holds(member, facts) {
            return false;
        }
    }
    true
}

#[cycle(holds)]
fn any_holds(members: &[Condition], facts: &BoardFacts) -> bool
    ensures { result ≡ any_holds (formulas members.now) facts.now }
{
    for member in members {
        if holds(member, facts) {
            return true;
        }
    }
    false
}

fn atom_holds(atom: Atom, facts: &BoardFacts) -> bool
    ensures { result ≡ atom_holds atom facts.now }
{
    match atom {
        Atom::Vulnerability(marking) => facts.vulnerability == marking,
        Atom::Dealer(place) => facts.dealer == place,
        Atom::Level(levels) => some_level(facts, levels),
        Atom::Strain(strain) => some_strain(facts, strain),
        Atom::Doubled(doubling) => some_doubling(facts, doubling),
        Atom::Made(made) => some_made(facts, made),
        Atom::Score(scores) => some_score(facts, scores),
        Atom::DoubleDummy {
            declarer,
            strain,
            tricks,
        } => table_has(&facts.tricks, declarer, strain, tricks),
    }
}

fn some_level(facts: &BoardFacts, levels: Bounds) -> bool
    ensures { result ≡ atom_holds (the_atom.Level levels) facts.now }
{
    facts
        .outcomes
        .as_slice()
        .iter()
        .any(|outcome| is_of_level(outcome, levels))
}

fn is_of_level(outcome: &Outcome, levels: Bounds) -> bool
    ensures { result ≡ is_contract_that (λ contract tricks. is_between levels contract.level) outcome.now }
{
    match outcome {
        Outcome::Played { contract, .. } => levels.contains(contract.level.number()),
        Outcome::PassedOut => false,
    }
}

fn some_strain(facts: &BoardFacts, strain: Strain) -> bool
    ensures { result ≡ atom_holds (the_atom.Strain strain) facts.now }
{
    facts
        .outcomes
        .as_slice()
        .iter()
        .any(|outcome| is_of_strain(outcome, strain))
}

fn is_of_strain(outcome: &Outcome, strain: Strain) -> bool
    ensures { result ≡ is_contract_that (λ contract tricks. is_same_strain contract.strain strain) outcome.now }
{
    match outcome {
        Outcome::Played { contract, .. } => contract.strain == strain,
        Outcome::PassedOut => false,
    }
}

fn some_doubling(facts: &BoardFacts, doubling: Doubling) -> bool
    ensures { result ≡ atom_holds (the_atom.Doubled doubling) facts.now }
{
    facts
        .outcomes
        .as_slice()
        .iter()
        .any(|outcome| is_doubled(outcome, doubling))
}

fn is_doubled(outcome: &Outcome, doubling: Doubling) -> bool
    ensures { result ≡ is_contract_that (λ contract tricks. times_doubled contract.doubling == times_doubled doubling) outcome.now }
{
    match outcome {
        Outcome::Played { contract, .. } => contract.doubling == doubling,
        Outcome::PassedOut => false,
    }
}

fn some_made(facts: &BoardFacts, made: bool) -> bool
    ensures { result ≡ atom_holds (the_atom.Made made) facts.now }
{
    facts
        .outcomes
        .as_slice()
        .iter()
        .any(|outcome| is_made(outcome, made))
}

fn is_made(outcome: &Outcome, made: bool) -> bool
    ensures { result ≡ is_contract_that (λ contract tricks. beq (is_made contract tricks) made) outcome.now }
{
    match outcome {
        Outcome::Played { contract, tricks } => (contract.level.number() + 6 <= tricks.number())
            == made,
        Outcome::PassedOut => false,
    }
}

fn some_score(facts: &BoardFacts, scores: ScoreBounds) -> bool
    ensures { result ≡ atom_holds (the_atom.Score scores) facts.now }
{
    let vulnerability = facts.vulnerability;
    facts.outcomes.as_slice().iter().any(|outcome| scores.contains(ns_score(
        *outcome,
        vulnerability,
    )))
}

fn table_has(table: &Option<TrickTable>, declarer: Place, strain: Strain, tricks: Bounds) -> bool
    ensures { result ≡ table_has table.now declarer strain tricks }
{
    match table {
        Some(table) => tricks.contains(table.tricks(strain, declarer)),
        None => false,
    }
}
