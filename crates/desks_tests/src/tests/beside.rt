//! Desks beside one another.

ghost use Rattle.std.specs.Prelude.{◌≡◌, []};
ghost use Rattle.desks.specs.Places.{IsTallyOf};

use super::serving::{beside, opened_book, shared_by};
use super::texts::{Beside, told};
use desks::{DeskPlaces, Shared, new_tally};
use displays::{Display, Server};
use entry_store::NoStore;
use history::History;
use session_book::Book;
use session_queries::Query;
use std::alloc::Global;
use std::marker::Brand;
use std::sync::Wait;
use std::sync::ledger::Blank;
use std::thread::{self, Threads};
use user_names::Name;

/// How many batches a desk is given.
const BATCHES: usize = 16;

/// Of the four commands the first two are accepted where nobody else holds the board; there is no board 4.
static HOLDS: [&str; 2] = [
    r#"{"as":"d","do":[{"board":1,"cmd":"Hold"},{"board":1,"cmd":"Release"},{"board":4,"cmd":"Hold"},{"board":1,"cmd":"Release"}]}"#,
    r#"{"as":"d","do":[{"board":2,"cmd":"Hold"},{"board":2,"cmd":"Release"},{"board":4,"cmd":"Hold"},{"board":2,"cmd":"Release"}]}"#,
];

/// Two desks and their displays: each display learns each receipt, and then answers at no older version.
fn learn_receipts<R: Threads + Wait + Sync>(rt: &R, alloc: Global) -> bool {
    match opened_book(alloc) {
        Some(book) => {
            let history = History::new();
            let tally = new_tally();
            learn_receipts_by::<Brand, R>(rt, alloc, book, history, tally)
        }
        None => false,
    }
}

// The same, under a server's name.
fn learn_receipts_by<N: Server + Send + Sync, R: Threads + Wait + Sync>(
    rt: &R,
    alloc: Global,
    book: Book,
    history: History,
    tally: Blank,
) -> bool
    requires journal { book.journal ≡ [] }
    requires opening { book.opening ≡ N.opening }
    requires history { history ≡ N.history }
    requires tally { IsTallyOf N.name N.parts tally.name tally.parts }
{
    match shared_by::<N, NoStore, R>(rt, alloc, book, history, tally, 3, NoStore) {
        Some((shared, places, displays)) => {
            let goes = learn_receipts_in(rt, alloc, &shared, places, displays);
            let _store = shared.close(rt);
            goes
        }
        None => false,
    }
}

fn learn_receipts_in<N: Server + Send + Sync, R: Threads + Wait + Sync>(
    rt: &R,
    alloc: Global,
    shared: &Shared<N, NoStore>,
    places: DeskPlaces<N>,
    displays: Vec<Display<N>>,
) -> bool {
    let (mut places, mut displays) = (places, displays);
    let (Some(one), Some(other), Some(last)) = (
        beside(shared, &mut places, &mut displays),
        beside(shared, &mut places, &mut displays),
        displays.pop(),
    ) else {
        return false;
    };
    let (mine, theirs) = thread::join(
        rt,
        move || learns(rt, alloc, one, HOLDS[0]),
        move || learns(rt, alloc, other, HOLDS[1]),
    );
    mine && theirs && is_at(alloc, last, 4 * BATCHES)
}

// Whether each batch of a board that nobody else holds is told as it should be, and the display then shows what was told.
fn learns<N: Server, R: Wait>(
    rt: &R,
    alloc: Global,
    one: Beside<'_, N, NoStore>,
    message: &str,
) -> bool {
    let mut one = one;
    for _ in 0..BATCHES {
        let Some((_, receipt)) = told(rt, alloc, &mut one, message) else {
            return false;
        };
        one.display.learn(&receipt);
        let told = receipt.version();
        if receipt.last() != told
            || receipt.first().wrapping_add(1) != told
            || !shows_since(alloc, &mut one.display, told)
        {
            return false;
        }
    }
    true
}

// Whether a display answers at a version no older than this one.
fn shows_since<N: Server>(alloc: Global, display: &mut Display<N>, version: usize) -> bool {
    let Ok(director) = Name::new("d") else {
        return false;
    };
    match display.query(alloc, director, &Query::Status, version as u64) {
        Ok(reply) => reply.version >= version,
        Err(_) => false,
    }
}

// Whether a display that learned nothing shows just this version.
fn is_at<N: Server>(alloc: Global, display: Display<N>, version: usize) -> bool {
    let mut display = display;
    let Ok(director) = Name::new("d") else {
        return false;
    };
    match display.query(alloc, director, &Query::Status, 0) {
        Ok(reply) => reply.version == version,
        Err(_) => false,
    }
}

/// Holds whatever the order in which threads run: the more runs, the more orders.
#[test]
fn displays_show_what_they_learned(rt: HostRuntime) {
    for run in 0..300 {
        assert!(rt; learn_receipts(&rt, rt.alloc()), "in run {run}");
    }
}

/// Four desks, of which two hold one board, so that some of their commands are refused.
static FOUR: [&str; 4] = [
    r#"{"as":"d","do":[{"board":1,"cmd":"Hold"},{"board":1,"cmd":"Release"},{"board":1,"cmd":"Hold"}]}"#,
    r#"{"as":"d2","do":[{"board":2,"cmd":"Hold"},{"board":2,"cmd":"Hold"},{"board":2,"cmd":"Release"}]}"#,
    r#"{"as":"d","do":[{"board":3,"cmd":"Release"},{"board":3,"cmd":"Hold"},{"board":3,"cmd":"Release"}]}"#,
    r#"{"as":"d2","do":[{"board":1,"cmd":"Release"},{"board":1,"cmd":"Hold"},{"board":4,"cmd":"Hold"}]}"#,
];

/// The first and the last number that each batch was told, where anything of it was accepted; and how much was accepted
/// in all.
#[derive(Drop)]
struct Numbers {
    spans: Vec<(usize, usize)>,
    accepted: usize,
}

/// Four desks in threads: what they were told makes one journal.
fn share_a_journal<R: Threads + Wait + Sync>(rt: &R, alloc: Global) -> bool {
    match opened_book(alloc) {
        Some(book) => {
            let history = History::new();
            let tally = new_tally();
            share_a_journal_by::<Brand, R>(rt, alloc, book, history, tally)
        }
        None => false,
    }
}

// The same, under a server's name.
fn share_a_journal_by<N: Server + Send + Sync, R: Threads + Wait + Sync>(
    rt: &R,
    alloc: Global,
    book: Book,
    history: History,
    tally: Blank,
) -> bool
    requires journal { book.journal ≡ [] }
    requires opening { book.opening ≡ N.opening }
    requires history { history ≡ N.history }
    requires tally { IsTallyOf N.name N.parts tally.name tally.parts }
{
    match shared_by::<N, NoStore, R>(rt, alloc, book, history, tally, 5, NoStore) {
        Some((shared, places, displays)) => {
            let goes = share_a_journal_in(rt, alloc, &shared, places, displays);
            let _store = shared.close(rt);
            goes
        }
        None => false,
    }
}

fn share_a_journal_in<N: Server + Send + Sync, R: Threads + Wait + Sync>(
    rt: &R,
    alloc: Global,
    shared: &Shared<N, NoStore>,
    places: DeskPlaces<N>,
    displays: Vec<Display<N>>,
) -> bool {
    let (mut places, mut displays) = (places, displays);
    let Some(last) = displays.pop() else {
        return false;
    };
    let (Some(one), Some(two), Some(three), Some(four)) = (
        beside(shared, &mut places, &mut displays),
        beside(shared, &mut places, &mut displays),
        beside(shared, &mut places, &mut displays),
        beside(shared, &mut places, &mut displays),
    ) else {
        return false;
    };
    let ((one, two), (three, four)) = thread::join(
        rt,
        move || two_told(rt, alloc, one, FOUR[0], two, FOUR[1]),
        move || two_told(rt, alloc, three, FOUR[2], four, FOUR[3]),
    );
    let (Some(one), Some(two), Some(three), Some(four)) = (one, two, three, four) else {
        return false;
    };
    match all_of(alloc, &[&one, &two, &three, &four]) {
        Some(all) => is_one_journal(&all) && is_at(alloc, last, all.accepted),
        None => false,
    }
}

// The numbers that two desks tell, each in a thread.
fn two_told<N: Server + Send + Sync, R: Threads + Wait + Sync>(
    rt: &R,
    alloc: Global,
    one: Beside<'_, N, NoStore>,
    message: &str,
    other: Beside<'_, N, NoStore>,
    others: &str,
) -> (Option<Numbers>, Option<Numbers>) {
    thread::join(
        rt,
        move || numbers_told(rt, alloc, one, message),
        move || numbers_told(rt, alloc, other, others),
    )
}

// The numbers that a desk tells of so many batches.
fn numbers_told<N: Server, R: Wait>(
    rt: &R,
    alloc: Global,
    one: Beside<'_, N, NoStore>,
    message: &str,
) -> Option<Numbers> {
    let mut one = one;
    let mut numbers = Numbers {
        spans: Vec::new(alloc),
        accepted: 0,
    };
    for _ in 0..BATCHES {
        let (text, receipt) = told(rt, alloc, &mut one, message)?;
        let accepted = text.as_str().matches(r#""ok""#).count();
        numbers.accepted = numbers.accepted.wrapping_add(accepted);
        if accepted > 0 {
            numbers.spans.push((receipt.first(), receipt.last())).ok()?;
        }
    }
    Some(numbers)
}

// The numbers of all desks, in order.
fn all_of(alloc: Global, parts: &[&Numbers]) -> Option<Numbers> {
    let mut all = Numbers {
        spans: Vec::new(alloc),
        accepted: 0,
    };
    for part in parts {
        all.accepted = all.accepted.wrapping_add(part.accepted);
        all.spans.extend_from_slice(part.spans.as_slice()).ok()?;
    }
    all.spans.sort_unstable();
    Some(all)
}

// Whether each number from 1 to how much was accepted was told once.
fn is_one_journal(all: &Numbers) -> bool {
    let mut before = 0;
    for &(first, last) in all.spans.as_slice() {
        if first.checked_sub(1) != Some(before) || last < first {
            return false;
        }
        before = last;
    }
    before == all.accepted
}

#[test]
fn four_desks_write_one_journal(rt: HostRuntime) {
    for run in 0..20 {
        assert!(rt; share_a_journal(&rt, rt.alloc()), "in run {run}");
    }
}
