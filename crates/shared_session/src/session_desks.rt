//! The desks of a session that threads share: one beside each display, and one for what the solver finds.

ghost use Rattle.std.specs.Prelude.{◌≡◌, [], All};

use crate::analysing_keeper::AnalysingKeeper;
use desks::{Desk, DeskKeeper, DeskPlaces, Shared};
use displays::{Display, Server};
use entry_store::EntryStore;
use event_log::SharedLog;
use session_jobs::JobQueue;
use std::alloc::Global;

/// A keeper for a display's clients, to whom nothing was shown yet.
pub struct NewKeeper<'a, N: Server, K: EntryStore> {
    desk: Desk<'a, N, K>,
    display: Display<N>,
    queue: Option<&'a JobQueue>,
    log: Option<&'a SharedLog>,
    // The display has seen nothing yet.
    ghost unseen: { display ≡ [] },
}

impl<'a, N: Server, K: EntryStore> NewKeeper<'a, N, K> {
    // What hears who signs in, if there is a log.
    pub(crate) fn log(&self) -> Option<&'a SharedLog> {
        self.log
    }

    /// The keeper, as its clients come.
    pub fn begin(self) -> AnalysingKeeper<'a, N, K>
        ensures { result.keeper.display ≡ [] }
    {
        let NewKeeper {
            desk,
            display,
            queue,
            log,
        } = self;
        AnalysingKeeper {
            keeper: DeskKeeper::new(desk, display),
            queue,
            log,
        }
    }
}

// It is written out, so that a caller does not prove again how each part is dropped.
impl<'a, N: Server, K: EntryStore> Drop for NewKeeper<'a, N, K> {
    fn drop(self) {
        let NewKeeper {
            desk: _,
            display: _,
            queue: _,
            log: _,
        } = self;
    }
}

/// Why a session gives out no desks.
#[derive(Clone, Copy)]
pub enum DeskFault {
    /// Memory was refused.
    OutOfMemory,
    /// There is no place for a desk.
    NoPlace,
}

/// The desks of a session.
pub struct SessionDesks<'a, N: Server, K: EntryStore> {
    /// The keepers, one for the clients of each display.
    pub keepers: Vec<NewKeeper<'a, N, K>>,
    /// The desk for what the solver finds.
    pub collecting: Desk<'a, N, K>,
}

/// A desk for what the solver finds, and one beside each display. What clients enter is analysed if there is a queue, and a log hears
/// of it if there is one.
pub fn desks_of<'a, N: Server, K: EntryStore>(
    alloc: Global,
    shared: &'a Shared<N, K>,
    mut places: DeskPlaces<N>,
    displays: Vec<Display<N>>,
    queue: Option<&'a JobQueue>,
    log: Option<&'a SharedLog>,
) -> Result<SessionDesks<'a, N, K>, DeskFault>
    requires { All (λ display. display ≡ []) displays.items }
{
    let Some(place) = places.take() else {
        drop(displays);
        return Err(DeskFault::NoPlace);
    };
    match keepers_of(alloc, shared, places, displays, queue, log) {
        Ok(keepers) => Ok(SessionDesks {
            keepers,
            collecting: shared.desk(place),
        }),
        Err(fault) => Err(fault),
    }
}

// The keepers for the displays' clients.
fn keepers_of<'a, N: Server, K: EntryStore>(
    alloc: Global,
    shared: &'a Shared<N, K>,
    mut places: DeskPlaces<N>,
    displays: Vec<Display<N>>,
    queue: Option<&'a JobQueue>,
    log: Option<&'a SharedLog>,
) -> Result<Vec<NewKeeper<'a, N, K>>, DeskFault>
    requires { All (λ display. display ≡ []) displays.items }
{
    let Ok(mut keepers) = Vec::with_capacity(alloc, displays.len()) else {
        return Err(DeskFault::OutOfMemory);
    };
    for display in displays {
        add_keeper(shared, &mut places, display, queue, log, &mut keepers)?;
    }
    Ok(keepers)
}

// Adds the keeper for the clients of a display.
fn add_keeper<'a, N: Server, K: EntryStore>(
    shared: &'a Shared<N, K>,
    places: &mut DeskPlaces<N>,
    display: Display<N>,
    queue: Option<&'a JobQueue>,
    log: Option<&'a SharedLog>,
    keepers: &mut Vec<NewKeeper<'a, N, K>>,
) -> Result<(), DeskFault>
    requires { display ≡ [] }
{
    let Some(place) = places.take() else {
        drop(display);
        return Err(DeskFault::NoPlace);
    };
    let keeper = NewKeeper {
        desk: shared.desk(place),
        display,
        queue,
        log,
    };
    add(keepers, keeper)
}

// Adds an item, which is dropped where memory is refused. It stands by itself, since it needs to know nothing of the item.
fn add<T: Drop>(items: &mut Vec<T>, item: T) -> Result<(), DeskFault> {
    match items.push(item) {
        Ok(()) => Ok(()),
        Err(_) => Err(DeskFault::OutOfMemory),
    }
}
