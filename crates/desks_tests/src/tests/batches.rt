//! What batches, audits and the solver's results are answered by a desk, and on a connection whose keeper is a desk and a
//! display: as by a book alone.

use super::serving::{Part, beside, is_served};
use super::session::{FIRST_DEAL, SECOND_DEAL};
use super::texts::{Beside, shows, tells};
use super::works::costs_of;
use cards::Deal;
use connections::Connection;
use desks::{DeskKeeper, DeskPlaces, Shared};
use displays::{Display, Server};
use double_dummy::{Budget, table};
use entry_store::NoStore;
use movement::Cell;
use session_book::Answer;
use session_commands::{Command, Refusal};
use std::alloc::Global;
use std::sync::Wait;

/// A scorer's batches: a command that is refused stops none of those behind it, and an empty batch enters nothing.
static BATCHES: [(&str, &str); 4] = [
    (
        r#"{"as":"k","do":[{"board":1,"cmd":"Enter","result":{"by":"N","doubled":0,"level":4,"strain":"S","tricks":10},"table":1},{"board":1,"cmd":"Enter","result":{"by":"N","doubled":0,"level":4,"strain":"S","tricks":10},"table":4},{"board":1,"cmd":"Confirm","result":{"by":"N","doubled":0,"level":4,"strain":"S","tricks":10},"table":1}]}"#,
        r#"{"answers":["ok","NoSuchCell","ok"],"first":1,"last":2,"version":2}"#,
    ),
    (
        r#"{"as":"k","do":[]}"#,
        r#"{"answers":[],"first":0,"last":0,"version":2}"#,
    ),
    (
        r#"{"as":"k","do":[{"board":2,"cmd":"Enter","result":"pass","table":1}]}"#,
        r#"{"answers":["RoundNotStarted"],"first":0,"last":0,"version":2}"#,
    ),
    (
        r#"{"as":"n1","do":[{"board":1,"cmd":"Enter","result":"pass","table":1}]}"#,
        r#"{"answers":["NotPermitted"],"first":0,"last":0,"version":2}"#,
    ),
];

/// Audits after them, and an account more.
static AUDITS: [(&str, &str); 3] = [
    (
        r#"{"as":"a","audit":{"from":1,"limit":10}}"#,
        r#"{"audit":[[1,"k","Enter","1/1"],[2,"k","Confirm","1/1"]],"version":2}"#,
    ),
    (
        r#"{"as":"n1","audit":{"from":1,"limit":10}}"#,
        r#"{"error":"NotPermitted"}"#,
    ),
    (
        r#"{"as":"a","do":[{"cmd":"AddUser","digest":"ba7816bf8f01cfea414140de5dae2223b00361a396177a9cb410ff61f20015ad","name":"v"}]}"#,
        r#"{"answers":["ok"],"first":3,"last":3,"version":3}"#,
    ),
];

/// What users then ask.
static QUERIES: [(&str, &str); 2] = [
    (
        r#"{"as":"n1","ask":"accounts"}"#,
        r#"{"denied":{"board":0,"rule":3,"table":0,"why":"accounts are for administrators and directors"},"version":3}"#,
    ),
    (
        r#"{"as":"v","ask":"status"}"#,
        r#"{"denied":{"board":0,"rule":2,"table":0,"why":"not a member"},"version":3}"#,
    ),
];

/// Each is answered by a desk so.
#[derive(Clone, Copy)]
struct Desks;

impl Part for Desks {
    fn goes<N: Server, R: Wait>(
        &self,
        rt: &R,
        alloc: Global,
        shared: &Shared<N, NoStore>,
        places: DeskPlaces<N>,
        displays: Vec<Display<N>>,
    ) -> bool {
        let (mut places, mut displays) = (places, displays);
        let Some(mut one) = beside(shared, &mut places, &mut displays) else {
            return false;
        };
        tells_all(rt, alloc, &mut one, &BATCHES)
            && tells_all(rt, alloc, &mut one, &AUDITS)
            && shows_all(alloc, &mut one.display)
            && takes_tables(rt, alloc, &mut one)
            && takes_costs(rt, alloc, &mut one)
            && tells(
                rt,
                alloc,
                &mut one,
                r#"{"as":"a","audit":{"from":3,"limit":10}}"#,
                r#"{"audit":[[3,"a","AddUser","v"],[4,null,"Solved","1"]],"version":4}"#,
            )
    }
}

fn tells_all<N: Server, R: Wait>(
    rt: &R,
    alloc: Global,
    beside: &mut Beside<'_, N, NoStore>,
    rows: &[(&str, &str)],
) -> bool {
    for &(message, answer) in rows {
        if !tells(rt, alloc, beside, message, answer) {
            return false;
        }
    }
    true
}

fn shows_all<N: Server>(alloc: Global, display: &mut Display<N>) -> bool {
    for &(message, answer) in &QUERIES {
        if !shows(alloc, display, message, answer) {
            return false;
        }
    }
    true
}

/// Another board's table is refused, the board's own is entered, and once.
fn takes_tables<N: Server, R: Wait>(
    rt: &R,
    alloc: Global,
    beside: &mut Beside<'_, N, NoStore>,
) -> bool {
    matches!(
        solved(rt, alloc, beside, SECOND_DEAL),
        Some((Answer::Refused(Refusal::StrangeDeal), 0, 0, 3))
    ) && matches!(
        solved(rt, alloc, beside, FIRST_DEAL),
        Some((Answer::Accepted, 4, 4, 4))
    ) && matches!(
        solved(rt, alloc, beside, FIRST_DEAL),
        Some((Answer::Refused(Refusal::AlreadySolved), 0, 0, 4))
    )
}

/// What is told of a command of the solver's: the answer, the first number, the last one and the version.
type Entered = Option<(Answer, usize, usize, usize)>;

// What a desk tells of a deal's table, given as that of board 1.
fn solved<N: Server, R: Wait>(
    rt: &R,
    alloc: Global,
    beside: &mut Beside<'_, N, NoStore>,
    deal: &str,
) -> Entered {
    let deal = deal.parse::<Deal>().ok()?;
    let Ok(found) = table(alloc, deal, &mut Budget::new(1_000_000)) else {
        return None;
    };
    let command = Command::Solved {
        board: 1,
        table: found,
    };
    let (answer, receipt) = beside.desk.submit_found(rt, &command);
    Some((answer, receipt.first(), receipt.last(), receipt.version()))
}

/// At table 2 there is no result of board 1; that of table 1 has no play.
fn takes_costs<N: Server, R: Wait>(
    rt: &R,
    alloc: Global,
    beside: &mut Beside<'_, N, NoStore>,
) -> bool {
    matches!(
        analysed(rt, alloc, beside, 2),
        Some((Answer::Refused(Refusal::NotLive), 0, 0, 4))
    ) && matches!(
        analysed(rt, alloc, beside, 1),
        Some((Answer::Refused(Refusal::StrangePlay), 0, 0, 4))
    )
}

// What a desk tells of the costs of a card, given as those of board 1 at a table.
fn analysed<N: Server, R: Wait>(
    rt: &R,
    alloc: Global,
    beside: &mut Beside<'_, N, NoStore>,
    table: u8,
) -> Entered {
    let costs = costs_of(alloc)?;
    let cell = Cell { table, board: 1 };
    let command = Command::Analysed { cell, costs };
    let (answer, receipt) = beside.desk.submit_found(rt, &command);
    Some((answer, receipt.first(), receipt.last(), receipt.version()))
}

#[test]
fn a_desk_answers_as_a_book_does(rt: HostRuntime) {
    assert!(rt; is_served(&rt, rt.alloc(), 1, &Desks));
}

/// The scorer's messages on a connection, those of a player and a director on the next ones, and an audit. What a board
/// that is held and released was told once would be accepted once more, were it entered again.
static MESSAGES: [(&str, &str); 12] = [
    (r#"{"do":[]}"#, r#"{"error":"NotSignedIn"}"#),
    (r#"{"hello":"k","token":"abd"}"#, r#"{"error":"NotKnown"}"#),
    (r#"{"hello":"k","token":"abc"}"#, r#"{"hello":"k"}"#),
    (
        r#"{"do":[{"board":1,"cmd":"Enter","result":{"by":"N","doubled":0,"level":4,"strain":"S","tricks":10},"table":1},{"board":1,"cmd":"Enter","result":{"by":"N","doubled":0,"level":4,"strain":"S","tricks":10},"table":4},{"board":1,"cmd":"Confirm","result":{"by":"N","doubled":0,"level":4,"strain":"S","tricks":10},"table":1}]}"#,
        r#"{"answers":["ok","NoSuchCell","ok"],"first":1,"last":2,"version":2}"#,
    ),
    (
        r#"{"do":[]}"#,
        r#"{"answers":[],"first":0,"last":0,"version":2}"#,
    ),
    (
        r#"{"do":[{"board":2,"cmd":"Enter","result":"pass","table":1}]}"#,
        r#"{"answers":["RoundNotStarted"],"first":0,"last":0,"version":2}"#,
    ),
    (r#"{"hello":"n1","token":"abc"}"#, r#"{"hello":"n1"}"#),
    (
        r#"{"do":[{"board":1,"cmd":"Enter","result":"pass","table":1}]}"#,
        r#"{"answers":["NotPermitted"],"first":0,"last":0,"version":2}"#,
    ),
    (r#"{"hello":"d","token":"abc"}"#, r#"{"hello":"d"}"#),
    (
        r#"{"do":[{"board":1,"cmd":"Hold"},{"board":1,"cmd":"Release"}]}"#,
        r#"{"answers":["ok","ok"],"first":3,"last":4,"version":4}"#,
    ),
    (r#"{"hello":"a","token":"abc"}"#, r#"{"hello":"a"}"#),
    (
        r#"{"audit":{"from":1,"limit":10}}"#,
        r#"{"audit":[[1,"k","Enter","1/1"],[2,"k","Confirm","1/1"],[3,"d","Hold","1"],[4,"d","Release","1"]],"version":4}"#,
    ),
];

/// Each is answered so on a connection.
#[derive(Clone, Copy)]
struct Connected;

impl Part for Connected {
    fn goes<N: Server, R: Wait>(
        &self,
        rt: &R,
        alloc: Global,
        shared: &Shared<N, NoStore>,
        places: DeskPlaces<N>,
        displays: Vec<Display<N>>,
    ) -> bool {
        let (mut places, mut displays) = (places, displays);
        let Some(Beside { desk, display }) = beside(shared, &mut places, &mut displays) else {
            return false;
        };
        let mut connection = Connection::new(alloc, DeskKeeper::new(desk, display));
        for &(message, answer) in &MESSAGES {
            if !is_answered(rt, alloc, &mut connection, message, answer) {
                return false;
            }
        }
        true
    }
}

fn is_answered<N: Server, R: Wait>(
    rt: &R,
    alloc: Global,
    connection: &mut Connection<DeskKeeper<'_, N, NoStore>>,
    message: &str,
    answer: &str,
) -> bool {
    match connection.serve_message(rt, alloc, message.as_bytes()) {
        Ok(text) => text.as_str() == answer,
        Err(_) => false,
    }
}

#[test]
fn a_connection_answers_over_a_desk_and_a_display(rt: HostRuntime) {
    assert!(rt; is_served(&rt, rt.alloc(), 1, &Connected));
}
