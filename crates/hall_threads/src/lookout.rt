//! Whether a thread looks for what comes next before it sleeps.

ghost use Rattle.std.specs.Prelude.{◌≡◌, ◌≤◌, ◌↔◌, suc, true, false};

use std::time::{Clock, Instant};

// How many microseconds after a wait began something is ready soon: whoever asked then may well ask again as soon.
const SOON: u128 = 60;

// How many microseconds a thread looks before it sleeps.
const LOOKING: u128 = 30;

// In how many waits at most a thread sleeps at once because it has looked in vain.
const LONGEST_PAUSE: u32 = 64;

/// Whether a thread looks before it sleeps: where something was ready soon in the wait before, but not for some waits once it has
/// looked in vain, twice as many each time in a row.
#[derive(Drop)]
pub(crate) struct Lookout {
    was_soon: bool,
    // In how many waits it doesn't look still.
    pause: u32,
    next_pause: u32,
}

impl Lookout {
    /// Before the first wait.
    pub(crate) fn new() -> Lookout
        ensures { result ≡ record { was_soon = false; pause = 0; next_pause = 1 } }
    {
        Lookout {
            was_soon: false,
            pause: 0,
            next_pause: 1,
        }
    }

    /// Whether to look in the wait that begins.
    pub(crate) fn is_due(&mut self) -> bool
        ensures due { (result ≡ true) ↔ ((self.old.was_soon ≡ true) × (self.old.pause ≡ 0)) }
        ensures same { (self.new.was_soon ≡ self.old.was_soon) × (self.new.next_pause ≡ self.old.next_pause) }
        ensures pause { (self.new.pause ≤ self.old.pause) × (self.old.pause ≤ suc self.new.pause) }
    {
        if !self.was_soon {
            return false;
        }
        if self.pause > 0 {
            self.pause -= 1;
            return false;
        }
        true
    }

    /// The thread has looked.
    pub(crate) fn has_looked(&mut self, found: bool)
        ensures same { self.new.was_soon ≡ self.old.was_soon }
        ensures found { found ≡ true → (self.new.pause ≡ self.old.pause) × (self.new.next_pause ≡ 1) }
        ensures vain { found ≡ false → (self.new.pause ≡ self.old.next_pause) × (self.new.next_pause ≤ 64) }
    {
        if found {
            self.next_pause = 1;
        } else {
            self.pause = self.next_pause;
            self.next_pause = self.next_pause.saturating_mul(2).min(LONGEST_PAUSE);
        }
    }

    /// The thread has waited.
    pub(crate) fn has_waited(&mut self, is_soon: bool)
        ensures { self.new ≡ record { was_soon = is_soon; pause = self.old.pause; next_pause = self.old.next_pause } }
    {
        self.was_soon = is_soon;
    }
}

/// Whether it is still soon after a time, by a clock that can be read.
pub(crate) fn is_soon<R: Clock>(rt: &R, since: Option<Instant>) -> bool {
    is_within(rt, since, SOON)
}

/// Whether a thread that looks since a time goes on, by a clock that can be read.
pub(crate) fn goes_on<R: Clock>(rt: &R, since: Option<Instant>) -> bool {
    is_within(rt, since, LOOKING)
}

fn is_within<R: Clock>(rt: &R, since: Option<Instant>, microseconds: u128) -> bool {
    match (since, Instant::now(rt)) {
        (Some(since), Ok(now)) => now.duration_since(since).as_micros() <= microseconds,
        _ => false,
    }
}
