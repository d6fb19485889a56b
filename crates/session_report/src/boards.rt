//! The boards with their results.
ghost use Rattle.std.specs.Prelude.{◌≡◌, ◌<◌, ◌≤◌, true, Some, All, IfOk, get_or, length};
ghost use Rattle.cards.specs.Hands.{IsDeal};
ghost use Rattle.movement.specs.Movement.{IsCell, IsSection, has_board, most_boards, most_tables};
ghost use Rattle.standings.specs.declared.earning.Earning.{Earning};
ghost use Rattle.standings.specs.declared.traveller_row.TravellerRow.{TravellerRow};
ghost use Rattle.session_report.specs.Report.{AreReported, reported_board, reported_boards, result_rows, with_earnings};

use crate::board_report::BoardReport;
use crate::result_row::ResultRow;
use movement::Movement;
use session_queries::{analysis_of, put_results};
use session_state::State;
use standings::{Earning, TableResult, TravellerRow, add_earnings, traveller_rows};
use std::alloc::{AllocError, Global};
use table_terms::{Items, Place, Vulnerability};

/// The boards from 1.
pub(crate) fn boards_of(alloc: Global, state: &State) -> Result<Vec<BoardReport>, AllocError>
    ensures boards { IfOk result (λ boards. boards.items ≡ reported_boards state.now) }
    ensures numbered { IfOk result (λ boards. AreReported 1 boards.items) }
    ensures few { IfOk result (λ boards. length boards.items ≤ most_boards) }
{
    let mut boards = Vec::new(alloc);
    for before in 0..state.public().movement.boards() {
        let board = board_of(alloc, state, before + 1)?;
        boards.push(board)?;
    }
    Ok(boards)
}

/// A board.
fn board_of(alloc: Global, state: &State, number: u8) -> Result<BoardReport, AllocError>
    requires section { IsSection state.now.public.movement }
    requires there { has_board state.now.public.movement number ≡ true }
    ensures board { IfOk result (λ board. reported_board state.now number ≡ Some board) }
    ensures number { IfOk result (λ board. board.number ≡ number) }
    ensures deal { IfOk result (λ board. IsDeal board.deal) }
{
    let deal = state.deal(number);
    // Whatever was dealt is a deal.
    let _north = deal.hand(Place::North);
    let marks = state.marks(number);
    let mut results = Vec::with_capacity(alloc, usize::from(Movement::MOST_TABLES))?;
    put_results(state, number, &mut results);
    let rows = rows_of(
        alloc,
        &state.public().movement,
        number,
        marks.vulnerability,
        &results,
    )?;
    Ok(BoardReport {
        number,
        deal,
        marks,
        tricks: analysis_of(state, number),
        rows: Items::new(rows),
    })
}

/// The results on a board, each with what it earns.
fn rows_of(
    alloc: Global,
    movement: &Movement,
    board: u8,
    vulnerability: Vulnerability,
    results: &[TableResult],
) -> Result<Vec<ResultRow>, AllocError>
    requires few { length results.now ≤ most_tables }
    requires cells { All (λ found. IsCell movement.now found.cell) results.now }
    ensures { IfOk result (λ rows. rows.items ≡ result_rows movement.now board vulnerability results.now) }
{
    let rows = traveller_rows(alloc, movement, vulnerability, results)?;
    let mut earnings = Vec::new(alloc);
    add_earnings(alloc, movement, vulnerability, results, &mut earnings)?;
    beside(alloc, board, &rows, &earnings)
}

/// Each row beside what its result earns.
fn beside(
    alloc: Global,
    board: u8,
    rows: &[TravellerRow],
    earnings: &[Earning],
) -> Result<Vec<ResultRow>, AllocError>
    requires { length rows.now ≡ length earnings.now }
    ensures { IfOk result (λ joined. joined.items ≡ with_earnings board rows.now earnings.now) }
{
    let mut joined = Vec::new(alloc);
    for place in 0..rows.len() {
        let row = row_at(rows, place);
        let earning = earning_at(earnings, place);
        joined.push(ResultRow {
            board,
            row,
            earning,
        })?;
    }
    Ok(joined)
}

fn row_at(rows: &[TravellerRow], place: usize) -> TravellerRow
    requires { place < length rows.now }
    ensures { (d : TravellerRow) → result ≡ get_or rows.now place d }
{
    rows[place]
}

fn earning_at(earnings: &[Earning], place: usize) -> Earning
    requires { place < length earnings.now }
    ensures { (d : Earning) → result ≡ get_or earnings.now place d }
{
    earnings[place]
}
