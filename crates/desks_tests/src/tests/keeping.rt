//! What desks and displays answer beside a store that fails once: of the batch that isn't kept nothing is seen.

ghost use Rattle.std.specs.Prelude.{◌≡◌, []};
ghost use Rattle.desks.specs.Places.{IsTallyOf};

use super::serving::{beside, opened_book, shared_by};
use super::session::FIRST_DEAL;
use super::texts::{Beside, fault, shows, tells};
use cards::Deal;
use desks::{DeskPlaces, Shared, new_tally};
use displays::{Display, Server};
use double_dummy::{Budget, table};
use entry_store::{EntryStore, KeepFault};
use history::History;
use session_book::{Answer, Book};
use session_commands::{Command, Entry, Refusal};
use session_keeper::SubmitFault;
use std::alloc::Global;
use std::marker::Brand;
use std::sync::Wait;
use std::sync::ledger::Blank;

/// A store that counts what it keeps, and fails at one of its tries. It promises nothing of what a crash leaves.
#[derive(Clone, Copy)]
struct FailingStore {
    tries: usize,
    fails_at: usize,
    fault: KeepFault,
    is_open: bool,
    publications: usize,
    entries: usize,
}

impl FailingStore {
    fn new(fails_at: usize, fault: KeepFault) -> FailingStore {
        FailingStore {
            tries: 0,
            fails_at,
            fault,
            is_open: true,
            publications: 0,
            entries: 0,
        }
    }
}

impl EntryStore for FailingStore {
    ghost use Rattle.std.specs.Prelude.{suc, zero};

    ghost doubt = { λ _. 1 };

    ghost leaves = { λ _ _. Unit {0} };

    ghost is_open = { λ store. store.is_open };

    ghost fails = { Unit {0} };

    fn is_open(&self) -> bool {
        self.is_open
    }

    fn keep(&mut self, entries: &[Entry]) -> Result<(), KeepFault> {
        self.tries = self.tries.saturating_add(1);
        if self.tries == self.fails_at {
            self.is_open = matches!(self.fault, KeepFault::NotKept);
            return Err(self.fault);
        }
        self.publications = self.publications.saturating_add(1);
        self.entries = self.entries.saturating_add(entries.len());
        Ok(())
    }
}

static FIRST_BATCH: (&str, &str) = (
    r#"{"as":"k","do":[{"board":1,"cmd":"Enter","result":{"by":"N","doubled":0,"level":4,"strain":"S","tricks":10},"table":1},{"board":1,"cmd":"Confirm","result":{"by":"N","doubled":0,"level":4,"strain":"S","tricks":10},"table":1}]}"#,
    r#"{"answers":["ok","ok"],"first":1,"last":2,"version":2}"#,
);

static SECOND_BATCH: (&str, &str) = (
    r#"{"as":"a","do":[{"cmd":"AddUser","digest":"ba7816bf8f01cfea414140de5dae2223b00361a396177a9cb410ff61f20015ad","name":"v"},{"cmd":"AddUser","digest":"ba7816bf8f01cfea414140de5dae2223b00361a396177a9cb410ff61f20015ad","name":"w"}]}"#,
    r#"{"answers":["ok","ok"],"first":3,"last":4,"version":4}"#,
);

static EMPTY_BATCH: (&str, &str) = (
    r#"{"as":"k","do":[]}"#,
    r#"{"answers":[],"first":0,"last":0,"version":2}"#,
);

static AUDIT: (&str, &str) = (
    r#"{"as":"a","audit":{"from":1,"limit":10}}"#,
    r#"{"audit":[[1,"k","Enter","1/1"],[2,"k","Confirm","1/1"]],"version":2}"#,
);

static LATER_AUDIT: (&str, &str) = (
    r#"{"as":"a","audit":{"from":3,"limit":10}}"#,
    r#"{"audit":[[3,"a","AddUser","v"],[4,"a","AddUser","w"]],"version":4}"#,
);

static QUERY: (&str, &str) = (
    r#"{"as":"v","ask":"status"}"#,
    r#"{"denied":{"board":0,"rule":1,"table":0,"why":"no such account"},"version":2}"#,
);

/// Whether a session goes as it should beside a store that fails at its second try.
fn goes<R: Wait>(rt: &R, alloc: Global, fault: KeepFault) -> bool {
    match opened_book(alloc) {
        Some(book) => {
            let history = History::new();
            let tally = new_tally();
            goes_named::<Brand, R>(rt, alloc, book, history, tally, fault)
        }
        None => false,
    }
}

// The same, under a server's name.
fn goes_named<N: Server, R: Wait>(
    rt: &R,
    alloc: Global,
    book: Book,
    history: History,
    tally: Blank,
    fault: KeepFault,
) -> bool
    requires journal { book.journal ≡ [] }
    requires opening { book.opening ≡ N.opening }
    requires history { history ≡ N.history }
    requires tally { IsTallyOf N.name N.parts tally.name tally.parts }
{
    let store = FailingStore::new(2, fault);
    match shared_by::<N, FailingStore, R>(rt, alloc, book, history, tally, 1, store) {
        Some((shared, places, displays)) => {
            let is_right = goes_in(rt, alloc, &shared, places, displays, fault);
            let store = shared.close(rt);
            is_right && has_kept(&store, fault)
        }
        None => false,
    }
}

fn goes_in<N: Server, R: Wait>(
    rt: &R,
    alloc: Global,
    shared: &Shared<N, FailingStore>,
    places: DeskPlaces<N>,
    displays: Vec<Display<N>>,
    fault: KeepFault,
) -> bool {
    let (mut places, mut displays) = (places, displays);
    match beside(shared, &mut places, &mut displays) {
        Some(mut one) => is_right(rt, alloc, &mut one, fault),
        None => false,
    }
}

// The first batch is kept, the second isn't; then as the fault has it.
fn is_right<N: Server, R: Wait>(
    rt: &R,
    alloc: Global,
    beside: &mut Beside<'_, N, FailingStore>,
    fault: KeepFault,
) -> bool {
    is_told(rt, alloc, beside, &FIRST_BATCH)
        && fails_so(rt, alloc, beside, fault)
        && shows(alloc, &mut beside.display, QUERY.0, QUERY.1)
        && is_told(rt, alloc, beside, &AUDIT)
        && match fault {
            KeepFault::NotKept => goes_on(rt, alloc, beside),
            KeepFault::Unsure => is_shut(rt, alloc, beside),
        }
}

fn is_told<N: Server, R: Wait>(
    rt: &R,
    alloc: Global,
    beside: &mut Beside<'_, N, FailingStore>,
    row: &(&str, &str),
) -> bool {
    tells(rt, alloc, beside, row.0, row.1)
}

// Whether the second batch fails with this fault.
fn fails_so<N: Server, R: Wait>(
    rt: &R,
    alloc: Global,
    beside: &mut Beside<'_, N, FailingStore>,
    expected: KeepFault,
) -> bool {
    match (fault(rt, alloc, beside, SECOND_BATCH.0), expected) {
        (Some(SubmitFault::NotKept), KeepFault::NotKept) => true,
        (Some(SubmitFault::Unsure), KeepFault::Unsure) => true,
        _ => false,
    }
}

// A store that is open again keeps the same batch, which has the numbers that it would have had.
fn goes_on<N: Server, R: Wait>(
    rt: &R,
    alloc: Global,
    beside: &mut Beside<'_, N, FailingStore>,
) -> bool {
    is_told(rt, alloc, beside, &EMPTY_BATCH)
        && is_told(rt, alloc, beside, &SECOND_BATCH)
        && is_told(rt, alloc, beside, &LATER_AUDIT)
}

// A store that is shut isn't asked: not for a batch in which nothing would be accepted, and not for the solver's.
fn is_shut<N: Server, R: Wait>(
    rt: &R,
    alloc: Global,
    beside: &mut Beside<'_, N, FailingStore>,
) -> bool {
    fails_so(rt, alloc, beside, KeepFault::NotKept)
        && matches!(
            fault(rt, alloc, beside, EMPTY_BATCH.0),
            Some(SubmitFault::NotKept)
        )
        && is_dropped(rt, alloc, beside)
        && is_told(rt, alloc, beside, &AUDIT)
}

// Whether a board's table is dropped.
fn is_dropped<N: Server, R: Wait>(
    rt: &R,
    alloc: Global,
    beside: &mut Beside<'_, N, FailingStore>,
) -> bool {
    let Ok(deal) = FIRST_DEAL.parse::<Deal>() else {
        return false;
    };
    let Ok(found) = table(alloc, deal, &mut Budget::new(1_000_000)) else {
        return false;
    };
    let command = Command::Solved {
        board: 1,
        table: found,
    };
    let (answer, receipt) = beside.desk.submit_found(rt, &command);
    matches!(answer, Answer::Refused(Refusal::OutOfMemory)) && receipt.version() == 2
}

// What a store was asked, and has kept, in the end.
fn has_kept(store: &FailingStore, fault: KeepFault) -> bool {
    let expected = match fault {
        KeepFault::NotKept => (3, 2, 4),
        KeepFault::Unsure => (2, 1, 2),
    };
    (store.tries, store.publications, store.entries) == expected
}

#[test]
fn a_batch_that_is_not_kept_is_not_seen(rt: HostRuntime) {
    assert!(rt; goes(&rt, rt.alloc(), KeepFault::NotKept));
}

#[test]
fn a_store_that_is_shut_is_not_asked_again(rt: HostRuntime) {
    assert!(rt; goes(&rt, rt.alloc(), KeepFault::Unsure));
}
