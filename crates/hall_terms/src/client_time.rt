//! Until when a client may go on.

ghost use Rattle.std.specs.Prelude.{◌≡◌, ◌+◌, ◌*◌, ◌<◌, ◌≤◌, ◌^◌, ◌↔◌, ℕ, IsTrue, List, [], ◌∷◌};
ghost use Rattle.hall_terms.specs.declared.client_event.ClientEvent.TheVariants.{Accepted};
ghost use Rattle.hall_terms.specs.Times.{Happening, IsTimeOf, greeting_time, late_at, late_from, taking_after, until_after, until_taken, until_waited};

use crate::client_event::ClientEvent;
use crate::client_stage::ClientStage;

// How many milliseconds there are to shake hands, and then to sign in.
const GREETING_TIME: u64 = 10_000;

// How many there are to take what is sent.
const TAKING_TIME: u64 = 30_000;

/// Until when a client may go on, in milliseconds of one clock: its connection ends at one time, which what happens on it
/// sets or leaves.
#[derive(Clone, Copy, Debug, PartialEq, Eq)]
pub struct ClientTime {
    stage: ClientStage,
    // Until when it has to do what its stage asks of it.
    until: u64,
    // Until when it has to take what is sent to it, if a part waits.
    taking: Option<u64>,
}

impl ClientTime {
    /// The time of a client that was accepted at this time.
    pub fn accepted(at: u64) -> ClientTime
        ensures { at < 2 ^ 63 → (idle : ℕ) → IsTimeOf idle (record { event = Accepted; at = at } ∷ []) result }
    {
        ClientTime {
            stage: ClientStage::Asking,
            until: at.saturating_add(GREETING_TIME),
            taking: None,
        }
    }

    /// Its time after an event. A client that is signed in has so many seconds from one message to the next.
    pub fn after(self, event: ClientEvent, at: u64, idle: u32) -> ClientTime
        ensures { at < 2 ^ 63 → (history : List Happening) → IsTimeOf idle history self →
            IsTimeOf idle (record { event = event; at = at } ∷ history) result }
    {
        ClientTime {
            stage: self.stage.after(event),
            until: until_after(idle, event, at, self.stage, self.until),
            taking: taking_after(event, at, self.taking),
        }
    }

    /// When it is late.
    pub fn late_at(self) -> u64
        ensures { (idle : ℕ) (history : List Happening) → IsTimeOf idle history self → result ≡ late_at idle history }
    {
        late_from(self.stage, self.until, self.taking)
    }

    /// Whether it is late now.
    pub fn is_late(self, now: u64) -> bool
        ensures { (idle : ℕ) (history : List Happening) → IsTimeOf idle history self →
            (IsTrue result ↔ (late_at idle history ≤ now)) }
    {
        self.late_at() <= now
    }

    /// How far the client has come.
    pub fn stage(self) -> ClientStage
        ensures { result ≡ self.stage }
    {
        self.stage
    }
}

// Until when it has to do what its stage asks of it, after an event.
fn until_after(idle: u32, event: ClientEvent, at: u64, stage: ClientStage, until: u64) -> u64
    ensures { at < 2 ^ 63 → result ≡ until_after idle event at stage until }
{
    match event {
        ClientEvent::Accepted | ClientEvent::Upgraded => at.saturating_add(GREETING_TIME),
        ClientEvent::Heard(true) => idle_after(idle, at),
        ClientEvent::Heard(false) | ClientEvent::Waits => until,
        ClientEvent::Taken => until_taken(idle, at, stage, until),
    }
}

// The same once all is taken that was sent to it.
fn until_taken(idle: u32, at: u64, stage: ClientStage, until: u64) -> u64
    ensures { at < 2 ^ 63 → result ≡ until_taken idle at stage until }
{
    match stage {
        ClientStage::Asking | ClientStage::Stranger => until,
        ClientStage::SignedIn => idle_after(idle, at),
    }
}

// So many seconds from now.
fn idle_after(idle: u32, at: u64) -> u64
    ensures { at < 2 ^ 63 → result ≡ at + 1000 * idle }
{
    at.saturating_add(1_000 * u64::from(idle))
}

// Until when it has to take what is sent to it, after an event.
fn taking_after(event: ClientEvent, at: u64, until: Option<u64>) -> Option<u64>
    ensures { at < 2 ^ 63 → result ≡ taking_after event at until }
{
    match event {
        ClientEvent::Accepted | ClientEvent::Upgraded | ClientEvent::Taken => None,
        ClientEvent::Heard(_) => until,
        ClientEvent::Waits => until_waited(at, until),
    }
}

// The same once a part waits.
fn until_waited(at: u64, until: Option<u64>) -> Option<u64>
    ensures { at < 2 ^ 63 → result ≡ until_waited at until }
{
    match until {
        Some(until) => Some(until),
        None => Some(at.saturating_add(TAKING_TIME)),
    }
}

// When it is late, by its stage, and by what it has to take.
fn late_from(stage: ClientStage, until: u64, taking: Option<u64>) -> u64
    ensures { result ≡ late_from stage until taking }
{
    match (taking, stage) {
        (None, _) => until,
        (Some(taking), ClientStage::Stranger) => until.min(taking),
        (Some(taking), ClientStage::Asking | ClientStage::SignedIn) => taking,
    }
}
