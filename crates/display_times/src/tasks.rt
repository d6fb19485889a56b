//! What the threads do.

ghost use Rattle.wire.specs.Request.{HasFew};

use desks::Desk;
use displays::{Display, Server};
use entry_store::NoStore;
use service_threads::Task;
use session_roles::Edition;
use std::alloc::Global;
use std::sync::Wait;
use std::sync::atomic::{AtomicBool, AtomicU64, Ordering};
use std::thread;
use std::time::{Clock, Duration, Instant};
use wire::{ScriptRequest, UserRequest, read_script_request};

/// What is counted while threads run.
#[derive(Drop)]
pub(crate) struct Counts {
    pub(crate) replies: AtomicU64,
    pub(crate) refused: AtomicU64,
    pub(crate) batches: AtomicU64,
    // No display is asked any more.
    pub(crate) is_over: AtomicBool,
}

/// Asks a display again and again, for so many milliseconds.
#[derive(Drop)]
pub(crate) struct Read<'a, N: Server> {
    pub(crate) alloc: Global,
    pub(crate) display: Display<N>,
    pub(crate) message: &'a str,
    pub(crate) milliseconds: u64,
    pub(crate) counts: &'a Counts,
}

impl<'a, N: Server> Task for Read<'a, N> {
    fn run<R: Wait + Clock>(self, rt: &R) {
        let Read {
            alloc,
            display,
            message,
            milliseconds,
            counts,
        } = self;
        let mut display = display;
        let (Ok(said), Ok(start)) = (
            read_script_request(alloc, message.as_bytes(), display.edition()),
            Instant::now(rt),
        ) else {
            return;
        };
        for _ in 0..u64::MAX {
            if replies(alloc, &mut display, &said) {
                counts.replies.fetch_add(1, Ordering::SeqCst);
            } else {
                counts.refused.fetch_add(1, Ordering::SeqCst);
            }
            if is_over(rt, start, milliseconds) {
                return;
            }
        }
    }
}

// Whether a display replies to a query.
fn replies<N: Server>(alloc: Global, display: &mut Display<N>, said: &ScriptRequest) -> bool {
    match &said.request {
        UserRequest::Query { query, since } => {
            display.query(alloc, said.user, query, *since).is_ok()
        }
        _ => false,
    }
}

// Whether so many milliseconds are over.
fn is_over<R: Clock>(rt: &R, start: Instant, milliseconds: u64) -> bool {
    match start.elapsed(rt) {
        Ok(elapsed) => elapsed >= Duration::from_millis(milliseconds),
        Err(_) => true,
    }
}

/// Gives a desk a batch, again after each pause until no display is asked any more.
#[derive(Drop)]
pub(crate) struct Write<'a, N: Server> {
    pub(crate) alloc: Global,
    pub(crate) desk: Desk<'a, N, NoStore>,
    pub(crate) display: Display<N>,
    pub(crate) edition: Edition,
    pub(crate) message: &'a str,
    pub(crate) pause: Option<u64>,
    pub(crate) counts: &'a Counts,
}

impl<'a, N: Server> Task for Write<'a, N> {
    fn run<R: Wait + Clock>(self, rt: &R) {
        let Write {
            alloc,
            mut desk,
            display,
            edition,
            message,
            pause,
            counts,
        } = self;
        for _ in 0..u64::MAX {
            if is_told(rt, alloc, &mut desk, &display, edition, message) {
                counts.batches.fetch_add(1, Ordering::SeqCst);
            }
            let Some(pause) = pause else {
                return;
            };
            thread::sleep(rt, Duration::from_millis(pause));
            if counts.is_over.load(Ordering::SeqCst) {
                return;
            }
        }
    }
}

// Whether a batch is told what became of it.
fn is_told<N: Server, R: Wait>(
    rt: &R,
    alloc: Global,
    desk: &mut Desk<'_, N, NoStore>,
    display: &Display<N>,
    edition: Edition,
    message: &str,
) -> bool {
    match read_script_request(alloc, message.as_bytes(), edition) {
        Ok(said) => is_tried(rt, desk, display, &said),
        Err(_) => false,
    }
}

fn is_tried<N: Server, R: Wait>(
    rt: &R,
    desk: &mut Desk<'_, N, NoStore>,
    display: &Display<N>,
    said: &ScriptRequest,
) -> bool
    requires { HasFew said.now.request }
{
    match &said.request {
        UserRequest::Batch { commands } => {
            desk.submit(rt, display, said.user, commands.as_slice())
                .is_ok()
        }
        _ => false,
    }
}

/// Says that no display is asked any more.
#[derive(Clone, Copy)]
pub(crate) struct End<'a> {
    pub(crate) counts: &'a Counts,
}

impl<'a> Task for End<'a> {
    fn run<R: Wait + Clock>(self, _rt: &R) {
        self.counts.is_over.store(true, Ordering::SeqCst);
    }
}

/// Does nothing: there is nothing to take in.
#[derive(Clone, Copy)]
pub(crate) struct Rest;

impl Task for Rest {
    fn run<R: Wait + Clock>(self, _rt: &R) {}
}
