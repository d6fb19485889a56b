ghost use Rattle.std.specs.Prelude.{◌≡◌, ◌≤◌, option_map};
ghost use Rattle.movement.specs.Movement.{most_boards};
ghost use Rattle.session_queries.specs.Content.{analysis_of, costs_of, costs_of_play, found_of, play_of, reason_of, result_of, strain_of_deal, tricks_of_deal};
ghost use Rattle.session_queries.specs.Par.{marked_par};

use crate::card_costs::CardCosts;
use cards::Play;
use disclosure_rules::Marks;
use par::{Par, par_of_board};
use query_filter::{StrainTricks, TrickTable};
use session_commands::CellState;
use session_state::State;
use solver_results::{DdTable, PlayAnswer, PlayCosts};
use standings::CellResult;
use table_terms::{Place, Strain};

/// The result of what is known of a cell, if there is one.
pub fn result_of(known: &CellState) -> Option<CellResult>
    ensures { result ≡ result_of known.now }
{
    match known {
        CellState::Empty | CellState::Entered { .. } => None,
        CellState::Confirmed { outcome, .. } => Some(CellResult::Confirmed(*outcome)),
        CellState::Ruled {
            north_south,
            east_west,
            ..
        } => Some(CellResult::Ruled {
            north_south: *north_south,
            east_west: *east_west,
        }),
    }
}

/// The cards as they were played at a cell, if it has a result; a ruling has none.
pub fn play_of(known: &CellState) -> Option<Play>
    ensures { result ≡ play_of known.now }
{
    match known {
        CellState::Empty | CellState::Entered { .. } => None,
        CellState::Confirmed { play, .. } => Some(*play),
        CellState::Ruled { .. } => Some(Play::none()),
    }
}

/// What the cards that were played at a cell cost, if it has a result.
pub fn costs_of(known: &CellState) -> Option<CardCosts>
    ensures { result ≡ costs_of known.now }
{
    match known {
        CellState::Empty | CellState::Entered { .. } => None,
        CellState::Confirmed { play, costs, .. } => Some(costs_of_play(play, costs)),
        CellState::Ruled { .. } => Some(CardCosts::NoCards),
    }
}

// What the cards of a play cost, once they are counted.
fn costs_of_play(play: &Play, counted: &Option<PlayCosts>) -> CardCosts
    ensures { result ≡ costs_of_play play.now counted.now }
{
    match counted {
        Some(counted) => found_of(counted.answer()),
        None => {
            if play.is_empty() {
                CardCosts::NoCards
            } else {
                CardCosts::Pending
            }
        }
    }
}

// What was found of a play.
fn found_of(answer: PlayAnswer) -> CardCosts
    ensures { result ≡ found_of answer }
{
    match answer {
        PlayAnswer::Costs(costs) => CardCosts::Each(costs),
        PlayAnswer::NotAPlay(number) => CardCosts::NotAPlay(number),
    }
}

/// The reason of a cell's ruling, if it has a result: 0 where it was played.
pub fn reason_of(known: &CellState) -> Option<u8>
    ensures { result ≡ reason_of known.now }
{
    match known {
        CellState::Empty | CellState::Entered { .. } => None,
        CellState::Confirmed { .. } => Some(0),
        CellState::Ruled { reason, .. } => Some(*reason),
    }
}

/// The double-dummy tricks of a board, once it is solved.
pub fn analysis_of(state: &State, board: u8) -> Option<TrickTable>
    requires from { 1 ≤ board }
    requires to { board ≤ most_boards }
    ensures { result ≡ analysis_of state.now board }
{
    match &state.table(board) {
        Some(table) => Some(tricks_of_table(table)),
        None => None,
    }
}

/// The par of a board with these marks, once it is solved.
pub fn board_par(state: &State, board: u8, marks: Marks) -> Option<Par>
    requires from { 1 ≤ board }
    requires to { board ≤ most_boards }
    ensures { result ≡ option_map (marked_par marks) (analysis_of state.now board) }
{
    match &state.table(board) {
        Some(table) => Some(par_of_table(table, marks)),
        None => None,
    }
}

// The par by a table, which is of a deal: so each of its numbers is at most thirteen.
#[tactic(auto, using(crate::proofs::ParLemmas::has_tricks), unfolding(crate::specs::Par::marked_par))]
fn par_of_table(table: &DdTable, marks: Marks) -> Par
    ensures { result ≡ marked_par marks (tricks_of_deal table.now) }
{
    let _ = table.deal();
    let tricks = tricks_of_table(table);
    let Some(par) = par_of_board(&tricks, marks.vulnerability, marks.dealer) else {
        unreachable!();
    };
    par
}

// The twenty numbers of a table.
fn tricks_of_table(table: &DdTable) -> TrickTable
    ensures { result ≡ tricks_of_deal table.now }
{
    TrickTable {
        spades: tricks_in(table, Strain::Spades),
        hearts: tricks_in(table, Strain::Hearts),
        diamonds: tricks_in(table, Strain::Diamonds),
        clubs: tricks_in(table, Strain::Clubs),
        no_trump: tricks_in(table, Strain::NoTrump),
    }
}

// The tricks of the four declarers in a strain.
fn tricks_in(table: &DdTable, strain: Strain) -> StrainTricks
    ensures { result ≡ strain_of_deal table.now strain }
{
    StrainTricks {
        north: table.tricks(strain, Place::North),
        east: table.tricks(strain, Place::East),
        south: table.tricks(strain, Place::South),
        west: table.tricks(strain, Place::West),
    }
}
