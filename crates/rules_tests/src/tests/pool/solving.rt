//! What a worker finds.

use super::{SUITS, results_of, table_work};
use cards::{Card, Deal, Play, Position, Rank};
use crossbeam_channel::Receiver;
use double_dummy::{Budget, SolveError, solve};
use movement::Cell;
use scoring::{Contract, Doubling, Level};
use solver_pool::{Done, Found, Work};
use solver_results::PlayAnswer;
use std::alloc::Global;
use std::sync::Wait;
use table_terms::{Place, Strain, Suit};

const fn two(suit: Suit) -> Card {
    Card {
        suit,
        rank: Rank::Two,
    }
}

/// North's two of spades and East's two of hearts have changed hands.
const CHANGED: &str = "N:AKQJT9876543.2.. 2.AKQJT9876543.. ..AKQJT98765432. ...AKQJT98765432";

/// The costs of a trick whose second card is the two of this suit, of that deal in one no trump by North.
fn costs_work(second: Suit) -> Option<Work> {
    let contract = Contract {
        level: Level::new(1)?,
        strain: Strain::NoTrump,
        declarer: Place::North,
        doubling: Doubling::Undoubled,
    };
    let ace = Card {
        suit: Suit::Spades,
        rank: Rank::Ace,
    };
    let play = Play::new(&[two(Suit::Spades), two(second), two(Suit::Clubs), ace])?;
    Some(Work::Costs {
        cell: Cell { table: 1, board: 2 },
        deal: CHANGED.parse::<Deal>().ok()?,
        contract,
        play,
    })
}

/// What a worker sends that has a job of this work, and so many visits.
fn sent(rt: &impl Wait, alloc: Global, work: &Work, visits: u64) -> Option<Done> {
    first_sent(rt, &results_of(rt, alloc, work, 1, visits)?)
}

fn first_sent(rt: &impl Wait, results: &Receiver<Done>) -> Option<Done> {
    match results.recv(rt) {
        Ok(done) => Some(done),
        Err(_) => None,
    }
}

/// North's tricks with each trump: who has the trumps takes all tricks; without trumps who leads does, East.
static NORTHS: [(Strain, u8); 5] = [
    (Strain::Spades, 13),
    (Strain::Hearts, 0),
    (Strain::Diamonds, 13),
    (Strain::Clubs, 0),
    (Strain::NoTrump, 0),
];

/// Whether a table was found in which North takes the tricks of long suits.
fn is_of_long_suits(found: &Found) -> bool {
    let Found::Table(table) = found else {
        return false;
    };
    for &(strain, tricks) in &NORTHS {
        if table.tricks(strain, Place::North) != tricks {
            return false;
        }
    }
    true
}

fn finds_table(rt: &impl Wait, alloc: Global) -> bool {
    let Some(work) = table_work() else {
        return false;
    };
    match sent(rt, alloc, &work, MANY) {
        Some(done) => is_of_long_suits(done.found()),
        None => false,
    }
}

/// Whether these costs of a play were found, or this card was named that is not legal, or neither and the visits were
/// too few.
fn is_answered(found: &Found, costs: &[u8], illegal: usize) -> bool {
    match found {
        Found::OutOfBudget => costs.is_empty() && illegal == 0,
        Found::Costs(found) => match found.answer() {
            PlayAnswer::Costs(numbers) => numbers.as_slice() == costs,
            PlayAnswer::NotAPlay(number) => number == illegal,
        },
        _ => false,
    }
}

/// The second card of a trick, how many visits a worker has, and what it answers: what each card costs, or the number
/// of the card that is not legal; without both, that the visits are too few.
type Row = (Suit, u64, &'static [u8], usize);

/// East leads the two of spades, and gives away eleven tricks by it. Without a visit nothing is solved, but a card that
/// is not legal is named.
static PLAYS: [Row; 3] = [
    (Suit::Diamonds, MANY, &[11, 0, 0, 0], 0),
    (Suit::Diamonds, 0, &[], 0),
    (Suit::Hearts, 0, &[], 2),
];

fn is_answer(rt: &impl Wait, alloc: Global, row: &Row) -> bool {
    let &(second, visits, costs, illegal) = row;
    let Some(work) = costs_work(second) else {
        return false;
    };
    match sent(rt, alloc, &work, visits) {
        Some(done) => is_answered(done.found(), costs, illegal),
        None => false,
    }
}

/// Whether the opening lead of whole suits isn't solved without a visit.
fn is_unsolved(alloc: Global) -> bool {
    let Ok(deal) = SUITS.parse::<Deal>() else {
        return false;
    };
    let position = Position::start(deal, Strain::NoTrump, Place::North);
    let solved = solve(alloc, &position, &mut Budget::new(0));
    matches!(solved, Err(SolveError::OutOfBudget))
}

const MANY: u64 = 1_000_000;

#[test]
fn finds_tables_and_costs_and_names_illegal_cards(rt: HostRuntime) {
    let alloc = rt.alloc();
    assert!(rt; finds_table(&rt, alloc));
    for play in &PLAYS {
        assert!(rt; is_answer(&rt, alloc, play));
    }
    assert!(rt; is_unsolved(alloc));
}

/// Whether two results come at least of three jobs; or a channel has no room to begin.
fn loses_one_at_most(rt: &impl Wait, alloc: Global) -> bool {
    let Some(work) = table_work() else {
        return false;
    };
    match results_of(rt, alloc, &work, 3, 0) {
        Some(results) => results.len() >= 2,
        None => true,
    }
}

/// Holds whichever growth is refused: where there is room to begin, one of three jobs or results is lost at most, and
/// the worker goes on.
#[test]
fn loses_no_more_than_one_result(rt: HostRuntime) {
    assert!(rt; loses_one_at_most(&rt, rt.alloc()));
}
