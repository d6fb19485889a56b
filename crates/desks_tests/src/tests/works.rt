//! What is left to solve at a cell.

use super::serving::{Part, beside, is_served};
use super::session::FIRST_DEAL;
use super::texts::{Beside, told};
use cards::{Card, Deal, Play, Rank};
use desks::{DeskPlaces, Shared};
use displays::{Display, Server};
use double_dummy::{Budget, play_costs};
use entry_store::NoStore;
use movement::Cell;
use scoring::{Contract, Doubling, Level};
use session_book::Answer;
use session_commands::Command;
use solver_pool::Work;
use solver_results::PlayCosts;
use std::alloc::Global;
use std::sync::Wait;
use table_terms::{Place, Strain, Suit};

const LEAD: Card = Card {
    suit: Suit::Spades,
    rank: Rank::Two,
};

// Four spades by North.
fn four_spades() -> Option<Contract> {
    Some(Contract {
        level: Level::new(4)?,
        strain: Strain::Spades,
        declarer: Place::North,
        doubling: Doubling::Undoubled,
    })
}

/// What the two of spades costs in four spades by North on board 1: East, who leads, has none.
pub(super) fn costs_of(alloc: Global) -> Option<PlayCosts> {
    let deal = FIRST_DEAL.parse::<Deal>().ok()?;
    let contract = four_spades()?;
    let play = Play::new(&[LEAD])?;
    play_costs(alloc, deal, contract, &play, &mut Budget::new(0)).ok()
}

/// A message of a scorer or a director; where it leads, the table and the board that are asked about, and whether the
/// costs of that card are left to find there.
static ROWS: [(&str, u8, u8, bool); 13] = [
    (r#"{"as":"k","do":[]}"#, 1, 1, false),
    (
        r#"{"as":"k","do":[{"board":1,"cmd":"Enter","play":["S2"],"result":{"by":"N","doubled":0,"level":4,"strain":"S","tricks":10},"table":1}]}"#,
        1,
        1,
        false,
    ),
    (
        r#"{"as":"k","do":[{"board":1,"cmd":"Confirm","result":{"by":"N","doubled":0,"level":4,"strain":"S","tricks":10},"table":1}]}"#,
        1,
        1,
        true,
    ),
    (r#"{"as":"k","do":[]}"#, 1, 2, false),
    (r#"{"as":"k","do":[]}"#, 4, 1, false),
    (r#"{"as":"k","do":[]}"#, 1, 4, false),
    (r#"{"as":"k","do":[]}"#, 0, 0, false),
    (
        r#"{"as":"d","do":[{"board":1,"cmd":"Correct","result":"pass","table":1}]}"#,
        1,
        1,
        false,
    ),
    (
        r#"{"as":"d","do":[{"board":1,"cmd":"Correct","result":{"by":"N","doubled":0,"level":4,"strain":"S","tricks":10},"table":1}]}"#,
        1,
        1,
        false,
    ),
    (
        r#"{"as":"d","do":[{"board":1,"cmd":"Correct","play":["S2"],"result":{"by":"N","doubled":0,"level":4,"strain":"S","tricks":10},"table":1}]}"#,
        1,
        1,
        true,
    ),
    (
        r#"{"as":"d","do":[{"board":1,"cmd":"Rule","ew":40,"ns":60,"reason":7,"table":1}]}"#,
        1,
        1,
        false,
    ),
    (
        r#"{"as":"d","do":[{"board":1,"cmd":"Void","table":1}]}"#,
        1,
        1,
        false,
    ),
    (
        r#"{"as":"d","do":[{"board":1,"cmd":"Rule","ew":40,"ns":60,"reason":7,"table":1},{"board":1,"cmd":"Correct","play":["S2"],"result":{"by":"N","doubled":0,"level":4,"strain":"S","tricks":10},"table":1}]}"#,
        1,
        1,
        true,
    ),
];

/// The costs of that card are left where they should be; at the end they are found.
#[derive(Clone, Copy)]
struct Works;

impl Part for Works {
    fn goes<N: Server, R: Wait>(
        &self,
        rt: &R,
        alloc: Global,
        shared: &Shared<N, NoStore>,
        places: DeskPlaces<N>,
        displays: Vec<Display<N>>,
    ) -> bool {
        let (mut places, mut displays) = (places, displays);
        let Some(mut one) = beside(shared, &mut places, &mut displays) else {
            return false;
        };
        for row in &ROWS {
            if !leaves(rt, alloc, &mut one, row) {
                return false;
            }
        }
        is_found(rt, alloc, &mut one)
    }
}

// Whether a row's message leaves that work or none.
fn leaves<N: Server, R: Wait>(
    rt: &R,
    alloc: Global,
    beside: &mut Beside<'_, N, NoStore>,
    &(message, table, board, is_left): &(&str, u8, u8, bool),
) -> bool {
    if told(rt, alloc, beside, message).is_none() {
        return false;
    }
    match beside
        .desk
        .work_of(rt, &beside.display, Cell { table, board })
    {
        Some(work) => is_left && is_of_the_lead(work),
        None => !is_left,
    }
}

// Whether the work is that of the lead's costs at table 1 on board 1.
fn is_of_the_lead(work: Work) -> bool {
    let Work::Costs {
        cell,
        deal,
        contract,
        play,
    } = work
    else {
        return false;
    };
    cell.table == 1
        && cell.board == 1
        && FIRST_DEAL.parse::<Deal>().ok() == Some(deal)
        && four_spades() == Some(contract)
        && play.as_slice() == [LEAD].as_slice()
}

// Whether the costs are entered, and then none are left to find.
fn is_found<N: Server, R: Wait>(
    rt: &R,
    alloc: Global,
    beside: &mut Beside<'_, N, NoStore>,
) -> bool {
    let Some(costs) = costs_of(alloc) else {
        return false;
    };
    let cell = Cell { table: 1, board: 1 };
    let command = Command::Analysed { cell, costs };
    let (answer, _) = beside.desk.submit_found(rt, &command);
    matches!(answer, Answer::Accepted) && beside.desk.work_of(rt, &beside.display, cell).is_none()
}

#[test]
fn a_desk_knows_what_is_left_to_solve(rt: HostRuntime) {
    assert!(rt; is_served(&rt, rt.alloc(), 1, &Works));
}
