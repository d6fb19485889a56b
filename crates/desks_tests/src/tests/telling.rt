//! A desk in one thread, displays in others.

ghost use Rattle.std.specs.Prelude.{◌≡◌, []};
ghost use Rattle.desks.specs.Places.{IsTallyOf};

use super::serving::{beside, opened_book, shared_by};
use super::texts::{Beside, shown, shows, told};
use desks::{DeskPlaces, Shared, new_tally};
use displays::{Display, Receipt, Server};
use entry_store::NoStore;
use history::History;
use session_book::Book;
use std::alloc::Global;
use std::marker::Brand;
use std::sync::Wait;
use std::sync::ledger::Blank;
use std::thread::{self, Threads};

/// A scorer enters and confirms a result.
const RESULT: &str =
    r#"{"as":"k","do":[{"board":1,"cmd":"Enter","result":{"by":"N","doubled":0,"level":4,"strain":"S","tricks":10},"table":1},{"board":1,"cmd":"Confirm","result":{"by":"N","doubled":0,"level":4,"strain":"S","tricks":10},"table":1}]}"#;

const TOLD: &str = r#"{"answers":["ok","ok"],"first":1,"last":2,"version":2}"#;

/// A player of that table asks for the board, and wants what comes after it.
const ASKS: &str = r#"{"as":"n1","ask":"board","board":1}"#;

const ASKS_LATER: &str = r#"{"as":"n1","ask":"board","board":1,"since":3}"#;

const DENIED: &str =
    r#"{"denied":{"board":1,"rule":5,"table":1,"why":"your pair has still to play this board"},"version":0}"#;

const SHOWN: &str =
    r#"{"board":{"deal":"N:AKQJT98765432... .AKQJT98765432.. ..AKQJT98765432. ...AKQJT98765432","dealer":"N","number":1,"vul":"none"},"version":2}"#;

const BEHIND: &str = r#"{"error":"Behind","version":2}"#;

/// While the result comes, the board is denied at the opening's version or shown at the result's; then each display
/// shows it, whether it was told or not.
fn shows_result<R: Threads + Wait + Sync>(rt: &R, alloc: Global) -> bool {
    match opened_book(alloc) {
        Some(book) => {
            let history = History::new();
            let tally = new_tally();
            shows_result_by::<Brand, R>(rt, alloc, book, history, tally)
        }
        None => false,
    }
}

// The same, under a server's name.
fn shows_result_by<N: Server + Send + Sync, R: Threads + Wait + Sync>(
    rt: &R,
    alloc: Global,
    book: Book,
    history: History,
    tally: Blank,
) -> bool
    requires journal { book.journal ≡ [] }
    requires opening { book.opening ≡ N.opening }
    requires history { history ≡ N.history }
    requires tally { IsTallyOf N.name N.parts tally.name tally.parts }
{
    match shared_by::<N, NoStore, R>(rt, alloc, book, history, tally, 3, NoStore) {
        Some((shared, places, displays)) => {
            let goes = shows_result_in(rt, alloc, &shared, places, displays);
            let _store = shared.close(rt);
            goes
        }
        None => false,
    }
}

fn shows_result_in<N: Server + Send + Sync, R: Threads + Wait + Sync>(
    rt: &R,
    alloc: Global,
    shared: &Shared<N, NoStore>,
    places: DeskPlaces<N>,
    displays: Vec<Display<N>>,
) -> bool {
    let (mut places, mut displays) = (places, displays);
    let Some(mut one) = beside(shared, &mut places, &mut displays) else {
        return false;
    };
    let (Some(learning), Some(other)) = (displays.pop(), displays.pop()) else {
        return false;
    };
    let (receipt, (other, early)) = thread::join(
        rt,
        move || confirmed(rt, alloc, &mut one),
        move || asked_early(alloc, other),
    );
    let Some(receipt) = receipt else {
        return false;
    };
    let told = &receipt;
    let (learned, unlearned) = thread::join(
        rt,
        move || shows_what_was_told(alloc, learning, told),
        move || shows_it_untold(alloc, other),
    );
    early && learned && unlearned
}

// The receipt for the result, if it is told as it should be.
fn confirmed<N: Server, R: Wait>(
    rt: &R,
    alloc: Global,
    beside: &mut Beside<'_, N, NoStore>,
) -> Option<Receipt<N>> {
    let (text, receipt) = told(rt, alloc, beside, RESULT)?;
    if text.as_str() == TOLD {
        Some(receipt)
    } else {
        None
    }
}

// The display again, and whether it answered as it may at any moment.
fn asked_early<N: Server>(alloc: Global, display: Display<N>) -> (Display<N>, bool) {
    let mut display = display;
    let answers = match shown(alloc, &mut display, ASKS) {
        Some(text) => text.as_str() == DENIED || text.as_str() == SHOWN,
        None => false,
    };
    (display, answers)
}

fn shows_what_was_told<N: Server>(
    alloc: Global,
    display: Display<N>,
    receipt: &Receipt<N>,
) -> bool {
    let mut display = display;
    display.learn(receipt);
    shows(alloc, &mut display, ASKS, SHOWN) && shows(alloc, &mut display, ASKS_LATER, BEHIND)
}

fn shows_it_untold<N: Server>(alloc: Global, display: Display<N>) -> bool {
    let mut display = display;
    shows(alloc, &mut display, ASKS, SHOWN) && shows(alloc, &mut display, ASKS_LATER, BEHIND)
}

#[test]
fn a_display_shows_what_a_desk_was_told(rt: HostRuntime) {
    assert!(rt; shows_result(&rt, rt.alloc()));
}
