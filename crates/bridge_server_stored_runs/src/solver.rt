//! What a solver tells, found from the words of a line.

ghost use Rattle.std.specs.Prelude.{◌≤◌, IfSome};
ghost use Rattle.movement.specs.Movement.{boards_of};

use cards::{Card, Deal, Play};
use double_dummy::{Budget, play_costs, table};
use movement::Cell;
use scoring::{Contract, Doubling, Level};
use session_state::State;
use solver_results::{DdTable, PlayCosts};
use std::alloc::Global;
use table_terms::{Place, Strain};

/// How many visits a search may make.
const VISITS: u64 = 100_000_000;

/// A board, and the table that is told of it.
pub(crate) fn table_told(alloc: Global, state: &State, words: &str) -> Option<(u8, DdTable)> {
    let Some((board, deal)) = number_in(words) else {
        return None;
    };
    let Some(deal) = deal_of(state, deal) else {
        return None;
    };
    match table(alloc, deal, &mut Budget::new(VISITS)) {
        Ok(found) => Some((board, found)),
        Err(_) => None,
    }
}

/// A cell, and the costs that are told of it.
pub(crate) fn costs_told(alloc: Global, state: &State, words: &str) -> Option<(Cell, PlayCosts)> {
    let Some((table, words)) = number_in(words) else {
        return None;
    };
    let Some((board, words)) = number_in(words) else {
        return None;
    };
    let Some((deal, cards)) = words.split_once(" ") else {
        return None;
    };
    let Some(deal) = deal_of(state, deal) else {
        return None;
    };
    let Some(play) = play_of(alloc, cards) else {
        return None;
    };
    match costs_of(alloc, deal, &play) {
        Some(found) => Some((Cell { table, board }, found)),
        None => None,
    }
}

// What the cards of a play cost in four spades by North.
fn costs_of(alloc: Global, deal: Deal, play: &Play) -> Option<PlayCosts> {
    let Some(contract) = four_spades() else {
        return None;
    };
    play_costs(alloc, deal, contract, play, &mut Budget::new(VISITS)).ok()
}

/// The number before the first blank, and what follows it.
pub(crate) fn number_in(words: &str) -> Option<(u8, &str)> {
    let Some((number, rest)) = words.split_once(" ") else {
        return None;
    };
    match number.parse::<u8>() {
        Ok(number) => Some((number, rest)),
        Err(_) => None,
    }
}

// The deal of a board of the session.
fn deal_of(state: &State, word: &str) -> Option<Deal> {
    match word.parse::<u8>() {
        Ok(board) if board >= 1 && board <= state.public().movement.boards() => {
            Some(state.deal(board))
        }
        _ => None,
    }
}

// The cards of these words.
fn play_of(alloc: Global, words: &str) -> Option<Play> {
    let mut cards = Vec::new(alloc);
    for word in words.split(" ") {
        let Ok(card) = word.parse::<Card>() else {
            return None;
        };
        if cards.push(card).is_err() {
            return None;
        }
    }
    Play::new(cards.as_slice())
}

// Four spades by North.
fn four_spades() -> Option<Contract> {
    Some(Contract {
        level: Level::new(4)?,
        strain: Strain::Spades,
        declarer: Place::North,
        doubling: Doubling::Undoubled,
    })
}
