//! A session that is opened, asked in threads, and closed.

ghost use Rattle.std.specs.Prelude.{◌≡◌, []};
ghost use Rattle.desks.specs.Places.{IsTallyOf};

use crate::tasks::{Counts, End, Read, Rest, Write};
use desks::{DeskPlaces, Shared, new_tally};
use displays::{Display, Server, open_displays};
use entry_store::NoStore;
use history::History;
use opened_session::{OpenedSession, open_session};
use published_view::View;
use service_threads::run_tasks;
use session_book::Book;
use session_roles::Edition;
use std::alloc::{AllocError, Global};
use std::marker::Brand;
use std::sync::Wait;
use std::sync::atomic::{AtomicBool, AtomicU64, Ordering};
use std::sync::ledger::Blank;
use std::thread::Threads;
use std::time::Clock;

// How many bytes the stack of each thread has.
const STACK: usize = 1_048_576;

/// What is to be measured: how many displays, for how many milliseconds, and how many of them the desk waits between two
/// batches, if there is more than one; or else how often in a row each query is answered.
#[derive(Clone, Copy)]
pub(crate) struct Plan {
    pub(crate) readers: usize,
    pub(crate) milliseconds: u64,
    pub(crate) pause: Option<u64>,
    pub(crate) times: Option<usize>,
}

/// How many queries had a reply and how many had none, and how many batches were told what became of them.
#[derive(Clone, Copy)]
pub(crate) struct Figures {
    pub(crate) replies: u64,
    pub(crate) refused: u64,
    pub(crate) batches: u64,
}

// What displays are asked and the desk is told, in a session of an edition of the policy.
#[derive(Clone, Copy)]
struct Messages<'a> {
    edition: Edition,
    query: &'a str,
    batch: &'a str,
}

/// What is measured in the session of a text's first line, by the messages of the next two.
pub(crate) fn measured<R: Threads + Wait + Clock + Sync>(
    rt: &R,
    alloc: Global,
    text: &str,
    plan: Plan,
) -> Option<Figures> {
    let (object, messages) = text.split_once('\n')?;
    let (query, rest) = messages.split_once('\n')?;
    let (batch, _) = rest.split_once('\n')?;
    match open_session(alloc, object.as_bytes(), None) {
        Ok(OpenedSession { book, .. }) => {
            let messages = Messages {
                edition: book.edition(),
                query,
                batch,
            };
            measure(rt, alloc, book, messages, plan)
        }
        Err(_) => None,
    }
}

fn measure<R: Threads + Wait + Clock + Sync>(
    rt: &R,
    alloc: Global,
    book: Book,
    messages: Messages<'_>,
    plan: Plan,
) -> Option<Figures>
    requires { book.journal ≡ [] }
{
    let history = History::new();
    let tally = new_tally();
    measure_named::<Brand, R>(rt, alloc, book, history, tally, messages, plan)
}

// The same, under a server's name.
fn measure_named<N: Server + Send + Sync, R: Threads + Wait + Clock + Sync>(
    rt: &R,
    alloc: Global,
    book: Book,
    history: History,
    tally: Blank,
    messages: Messages<'_>,
    plan: Plan,
) -> Option<Figures>
    requires journal { book.journal ≡ [] }
    requires opening { book.opening ≡ N.opening }
    requires history { history ≡ N.history }
    requires tally { IsTallyOf N.name N.parts tally.name tally.parts }
{
    let (Ok(first), Ok(second)) = (View::open(alloc, &book), View::open(alloc, &book)) else {
        return None;
    };
    // One more for the desk, which submits beside it.
    let count = plan.readers.saturating_add(1);
    match open_displays::<N, R>(rt, alloc, history, first, second, count) {
        Ok((publisher, displays)) => {
            let (shared, places) = Shared::new(alloc, book, publisher, NoStore, tally);
            let figures = measure_shared(rt, alloc, &shared, places, displays, messages, plan);
            let _store = shared.close(rt);
            figures
        }
        Err(_) => None,
    }
}

// Asks each display in a thread of its own, and gives the desk its batches in one more.
fn measure_shared<N: Server + Send + Sync, R: Threads + Wait + Clock + Sync>(
    rt: &R,
    alloc: Global,
    shared: &Shared<N, NoStore>,
    places: DeskPlaces<N>,
    displays: Vec<Display<N>>,
    messages: Messages<'_>,
    plan: Plan,
) -> Option<Figures> {
    let counts = Counts {
        replies: AtomicU64::new(0),
        refused: AtomicU64::new(0),
        batches: AtomicU64::new(0),
        is_over: AtomicBool::new(false),
    };
    let (mut places, mut displays) = (places, displays);
    let (Some(place), Some(display)) = (places.take(), displays.pop()) else {
        return None;
    };
    let readers = readers(alloc, displays, messages.query, plan, &counts);
    let mut writers = Vec::new(alloc);
    let pushed = writers.push(Write {
        alloc,
        desk: shared.desk(place),
        display,
        edition: messages.edition,
        message: messages.batch,
        pause: plan.pause,
        counts: &counts,
    });
    let (Ok(readers), Ok(())) = (readers, pushed) else {
        return None;
    };
    let started = run_tasks(rt, STACK, Rest, writers, readers, End { counts: &counts });
    if started < plan.readers {
        return None;
    }
    Some(Figures {
        replies: counts.replies.load(Ordering::SeqCst),
        refused: counts.refused.load(Ordering::SeqCst),
        batches: counts.batches.load(Ordering::SeqCst),
    })
}

fn readers<'a, N: Server>(
    alloc: Global,
    displays: Vec<Display<N>>,
    message: &'a str,
    plan: Plan,
    counts: &'a Counts,
) -> Result<Vec<Read<'a, N>>, AllocError> {
    let mut readers = Vec::with_capacity(alloc, displays.len())?;
    for display in displays {
        readers.push(Read {
            alloc,
            display,
            message,
            milliseconds: plan.milliseconds,
            counts,
        })?;
    }
    Ok(readers)
}
