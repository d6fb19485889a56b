use crate::{Task, run_tasks};
use std::sync::Wait;
use std::sync::atomic::{AtomicBool, AtomicU32, Ordering};
use std::thread;
use std::time::{Clock, Duration};

/// How many threads of each kind there are.
const SERVERS: u32 = 3;

const WORKERS: u32 = 2;

/// What is noted while threads run.
#[derive(Drop)]
struct Notes {
    served: AtomicU32,
    worked: AtomicU32,
    is_closed: AtomicBool,
    // How many had served when no more work could come, and how many had worked when all was taken in.
    served_before: AtomicU32,
    worked_before: AtomicU32,
}

impl Notes {
    fn new() -> Notes {
        Notes {
            served: AtomicU32::new(0),
            worked: AtomicU32::new(0),
            is_closed: AtomicBool::new(false),
            served_before: AtomicU32::new(0),
            worked_before: AtomicU32::new(0),
        }
    }

    /// How many had served and worked, and how many of them before the end of what waited for them.
    fn counts(&self) -> (u32, u32, u32, u32) {
        (
            self.served.load(Ordering::SeqCst),
            self.worked.load(Ordering::SeqCst),
            self.served_before.load(Ordering::SeqCst),
            self.worked_before.load(Ordering::SeqCst),
        )
    }
}

/// Serves for some milliseconds.
#[derive(Clone, Copy)]
struct Serve<'a> {
    notes: &'a Notes,
}

impl<'a> Task for Serve<'a> {
    fn run<R: Wait + Clock>(self, rt: &R) {
        thread::sleep(rt, Duration::from_millis(20));
        self.notes.served.fetch_add(1, Ordering::SeqCst);
    }
}

/// Works until no more work can come, for at most a thousand turns of a millisecond.
#[derive(Clone, Copy)]
struct Work<'a> {
    notes: &'a Notes,
}

impl<'a> Task for Work<'a> {
    fn run<R: Wait + Clock>(self, rt: &R) {
        for _ in 0..1_000 {
            if self.notes.is_closed.load(Ordering::SeqCst) {
                self.notes.worked.fetch_add(1, Ordering::SeqCst);
                return;
            }
            thread::sleep(rt, Duration::from_millis(1));
        }
    }
}

/// Waits for the workers, for at most a thousand turns of a millisecond.
#[derive(Clone, Copy)]
struct TakeIn<'a> {
    notes: &'a Notes,
}

impl<'a> Task for TakeIn<'a> {
    fn run<R: Wait + Clock>(self, rt: &R) {
        for _ in 0..1_000 {
            let worked = self.notes.worked.load(Ordering::SeqCst);
            self.notes.worked_before.store(worked, Ordering::SeqCst);
            if worked == WORKERS {
                return;
            }
            thread::sleep(rt, Duration::from_millis(1));
        }
    }
}

/// Notes how many have served, and lets no more work come.
#[derive(Clone, Copy)]
struct Close<'a> {
    notes: &'a Notes,
}

impl<'a> Task for Close<'a> {
    fn run<R: Wait + Clock>(self, _rt: &R) {
        let served = self.notes.served.load(Ordering::SeqCst);
        self.notes.served_before.store(served, Ordering::SeqCst);
        self.notes.is_closed.store(true, Ordering::SeqCst);
    }
}

/// How many bytes the stack of a thread has, how many that serve are started, and what is noted: so many served, so many
/// worked, so many had served when no more work could come, and so many had worked when all was taken in. No memory holds
/// a stack as long as the second.
static ROWS: [(usize, usize, (u32, u32, u32, u32)); 2] = [
    (
        65_536,
        SERVERS as usize,
        (SERVERS, WORKERS, SERVERS, WORKERS),
    ),
    (usize::MAX / 4, 0, (0, 0, 0, 0)),
];

#[test]
fn what_serves_ends_first_and_what_takes_in_last(rt: HostRuntime) {
    for &(stack, started, counts) in &ROWS {
        let noted = Notes::new();
        let notes = &noted;
        let (Ok(workers), Ok(servers)) = (
            Vec::from_elem(rt.alloc(), Work { notes }, WORKERS as usize),
            Vec::from_elem(rt.alloc(), Serve { notes }, SERVERS as usize),
        ) else {
            panic!(rt; "no memory");
        };
        let (collector, ending) = (TakeIn { notes }, Close { notes });
        let count = run_tasks(&rt, stack, collector, workers, servers, ending);
        assert_eq!(rt; count, started, "with a stack of {stack} bytes");
        assert_eq!(rt; noted.counts(), counts, "with a stack of {stack} bytes");
        assert!(rt;
            noted.is_closed.load(Ordering::SeqCst),
            "with a stack of {stack} bytes"
        );
    }
}
