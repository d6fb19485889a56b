//! The collector's step: what is of no job that was given, what comes a second time, and where visits ran out, enters
//! nothing.

use super::serving::{Part, beside, is_served};
use super::session::{FIRST_DEAL, SECOND_DEAL};
use cards::Deal;
use collector::collect;
use desks::{Desk, DeskPlaces, Shared};
use displays::{Display, Server};
use entry_store::NoStore;
use session_book::Answer;
use solver_pool::{Done, Job, Pool, Work, solve_job};
use std::alloc::Global;
use std::sync::Wait;

/// More visits than any of these tables takes.
const MANY: u64 = 1_000_000;

/// A result: the number of its job, the board with its deal, and the visits; and the first number, the last one and the
/// version that are told of it, if it is entered.
type Row = (u32, u8, &'static str, u64, Option<(usize, usize, usize)>);

/// What comes where jobs 1 and 2 were given. What isn't entered would be accepted by the book.
static ROWS: [Row; 6] = [
    // Strangers.
    (0, 2, SECOND_DEAL, MANY, None),
    (3, 2, SECOND_DEAL, MANY, None),
    (1, 1, FIRST_DEAL, MANY, Some((1, 1, 1))),
    // A double.
    (1, 2, SECOND_DEAL, MANY, None),
    // The visits ran out, and the job's result has come.
    (2, 2, SECOND_DEAL, 0, None),
    (2, 2, SECOND_DEAL, MANY, None),
];

/// What a worker sends of a board's table.
fn solved(alloc: Global, number: u32, board: u8, deal: &str, visits: u64) -> Option<Done> {
    let deal = deal.parse::<Deal>().ok()?;
    let work = Work::Table { board, deal };
    Some(solve_job(alloc, Job { number, work }, visits))
}

/// Whether a result is entered just as its row says.
fn is_taken_in<N: Server, R: Wait>(
    rt: &R,
    alloc: Global,
    pool: &mut Pool,
    desk: &mut Desk<'_, N, NoStore>,
    row: &Row,
) -> bool {
    let &(number, board, deal, visits, told) = row;
    let Some(done) = solved(alloc, number, board, deal, visits) else {
        return false;
    };
    match collect(rt, pool, desk, &done) {
        Some((answer, receipt)) => {
            matches!(answer, Answer::Accepted)
                && told == Some((receipt.first(), receipt.last(), receipt.version()))
        }
        None => told.is_none(),
    }
}

/// A pool that has given two jobs.
fn pool_of_two(alloc: Global) -> Option<Pool> {
    let mut pool = Pool::new(alloc).ok()?;
    for _ in 0..2 {
        let deal = FIRST_DEAL.parse::<Deal>().ok()?;
        let Ok(_job) = pool.add(Work::Table { board: 1, deal }) else {
            return None;
        };
    }
    Some(pool)
}

/// Each result is entered, or isn't, as its row says; the next entry then has number 2.
#[derive(Clone, Copy)]
struct Collected;

impl Part for Collected {
    fn goes<N: Server, R: Wait>(
        &self,
        rt: &R,
        alloc: Global,
        shared: &Shared<N, NoStore>,
        places: DeskPlaces<N>,
        displays: Vec<Display<N>>,
    ) -> bool {
        let (mut places, mut displays) = (places, displays);
        let Some(mut one) = beside(shared, &mut places, &mut displays) else {
            return false;
        };
        takes_in(rt, alloc, &mut one.desk) == Some(true)
    }
}

/// Whether a pool and a desk take in each row as it says, and then one result more.
fn takes_in<N: Server, R: Wait>(
    rt: &R,
    alloc: Global,
    desk: &mut Desk<'_, N, NoStore>,
) -> Option<bool> {
    let mut pool = pool_of_two(alloc)?;
    for row in &ROWS {
        if !is_taken_in(rt, alloc, &mut pool, desk, row) {
            return Some(false);
        }
    }
    Some(enters_second(rt, alloc, &mut pool, desk))
}

/// Whether the table of board 2, under a number that is given now, is entered as number 2.
fn enters_second<N: Server, R: Wait>(
    rt: &R,
    alloc: Global,
    pool: &mut Pool,
    desk: &mut Desk<'_, N, NoStore>,
) -> bool {
    let Ok(deal) = SECOND_DEAL.parse::<Deal>() else {
        return false;
    };
    let Ok(job) = pool.add(Work::Table { board: 2, deal }) else {
        return false;
    };
    let row = (job.number, 2, SECOND_DEAL, MANY, Some((2, 2, 2)));
    is_taken_in(rt, alloc, pool, desk, &row)
}

#[test]
fn strangers_and_doubles_enter_nothing(rt: HostRuntime) {
    assert!(rt; is_served(&rt, rt.alloc(), 1, &Collected));
}
