//! A session is opened for threads.
//!
//! On a way out at a fault a book, a view, a publisher or a display is dropped by name: that is one call, where it would otherwise be
//! dropped there field by field, each a step of the proof.

ghost use Rattle.std.specs.Prelude.{◌≡◌, ◌≢◌, ℕ, [], All, map, IfOk, IfErr};
ghost use Rattle.displays.specs.Copies.{IsPublished};
ghost use Rattle.displays.specs.Publishing.{nothing_outgoing};
ghost use Rattle.desks.specs.Kept.{LeavesJust};
ghost use Rattle.desks.specs.Places.{IsTallyOf};

use desks::{DeskPlaces, ReentryFault, Shared, reenter_all};
use displays::{Display, OpenError, Publisher, Server, open_displays};
use entry_store::EntryStore;
use history::History;
use published_view::View;
use session_book::Book;
use session_commands::Entry;
use session_jobs::JobQueue;
use std::alloc::Global;
use std::sync::Wait;
use std::sync::ledger::Blank;

/// A session that threads share. What is under the lock has to be closed at the end.
pub struct SharedSession<N: Server, K: EntryStore> {
    /// What is under the lock.
    pub shared: Shared<N, K>,
    /// The places at which desks stand.
    pub places: DeskPlaces<N>,
    /// The displays, none of which has seen anything.
    pub displays: Vec<Display<N>>,
}

/// Why no session is shared.
#[derive(Clone, Copy)]
pub enum SharingFault {
    /// Memory was refused.
    OutOfMemory,
    /// There is no place for a display.
    NoPlace,
    /// The entry of this number, from 1, isn't accepted where it stands among those that the store keeps.
    NotAccepted(u32),
}

/// A session under a lock, with so many displays. Its book has nothing entered yet: the publications that the store keeps are
/// entered, each as one. What they leave to find is queued, if there is a queue.
pub fn share_session<N: Server, R: Wait, K: EntryStore>(
    rt: &R,
    alloc: Global,
    book: Book,
    history: History,
    tally: Blank,
    store: K,
    publications: Vec<Vec<Entry>>,
    queue: Option<&JobQueue>,
    displays: u8,
) -> Result<SharedSession<N, K>, SharingFault>
    requires journal { book.journal ≡ [] }
    requires opening { book.opening ≡ N.opening }
    requires history { history ≡ N.history }
    requires tally { IsTallyOf N.name N.parts tally.name tally.parts }
    requires kept { LeavesJust (map (λ publication. publication.items) publications.items) (K.doubt store) (K.leaves store) }
    ensures displays { IfOk result (λ session. All (λ display. display ≡ []) session.displays.items) }
    ensures accepted { IfErr result (λ fault. (number : ℕ)
        → IsPublished N.opening (map (λ publication. publication.items) publications.items)
        → fault ≢ SharingFault.NotAccepted number) }
{
    let (publisher, displays) = match open_views::<N, R>(rt, alloc, &book, history, displays) {
        Ok(opened) => opened,
        Err(error) => {
            drop(book);
            return Err(not_opened(error));
        }
    };
    match share::<N, R, K>(
        rt,
        alloc,
        book,
        publisher,
        store,
        tally,
        publications,
        queue,
    ) {
        Ok((shared, places)) => Ok(SharedSession {
            shared,
            places,
            displays,
        }),
        Err((number, fault)) => {
            drop(displays);
            Err(not_reentered(number, fault))
        }
    }
}

// Why nothing is shared where no displays open.
fn not_opened(error: OpenError) -> SharingFault
    ensures { (number : ℕ) → result ≢ SharingFault.NotAccepted number }
{
    match error {
        OpenError::NoPlace => SharingFault::NoPlace,
        OpenError::OutOfMemory => SharingFault::OutOfMemory,
    }
}

// Why nothing is shared where an entry isn't entered again.
fn not_reentered(number: usize, fault: ReentryFault) -> SharingFault
    ensures { fault ≡ ReentryFault.OutOfMemory → result ≡ SharingFault.OutOfMemory }
{
    match fault {
        ReentryFault::OutOfMemory => SharingFault::OutOfMemory,
        ReentryFault::Refused(_) | ReentryFault::Empty => {
            SharingFault::NotAccepted(u32::try_from(number).unwrap_or(u32::MAX))
        }
    }
}

// The publisher of a book in which nothing is entered yet, and so many displays.
fn open_views<N: Server, R: Wait>(
    rt: &R,
    alloc: Global,
    book: &Book,
    history: History,
    displays: u8,
) -> Result<(Publisher<N>, Vec<Display<N>>), OpenError>
    requires journal { book.now.journal ≡ [] }
    requires opening { book.now.opening ≡ N.opening }
    requires history { history ≡ N.history }
    ensures publisher { IfOk result (λ t. t.0 ≡ nothing_outgoing) }
    ensures displays { IfOk result (λ t. All (λ display. display ≡ []) t.1.items) }
{
    let first = match View::open(alloc, book) {
        Ok(view) => view,
        Err(_) => return Err(OpenError::OutOfMemory),
    };
    let second = match View::open(alloc, book) {
        Ok(view) => view,
        Err(_) => {
            drop(first);
            return Err(OpenError::OutOfMemory);
        }
    };
    open_displays::<N, R>(rt, alloc, history, first, second, displays as usize)
}

// Enters what a store keeps, and puts all of it under a lock. What is left to find is queued, if there is a queue.
fn share<N: Server, R: Wait, K: EntryStore>(
    rt: &R,
    alloc: Global,
    mut book: Book,
    mut publisher: Publisher<N>,
    store: K,
    tally: Blank,
    publications: Vec<Vec<Entry>>,
    queue: Option<&JobQueue>,
) -> Result<(Shared<N, K>, DeskPlaces<N>), (usize, ReentryFault)>
    requires journal { book.journal ≡ [] }
    requires opening { book.opening ≡ N.opening }
    requires publisher { publisher ≡ nothing_outgoing }
    requires tally { IsTallyOf N.name N.parts tally.name tally.parts }
    requires kept { LeavesJust (map (λ publication. publication.items) publications.items) (K.doubt store) (K.leaves store) }
    ensures accepted { IfErr result (λ t. IsPublished N.opening (map (λ publication. publication.items) publications.items)
        → t.1 ≡ ReentryFault.OutOfMemory) }
{
    match reenter_all(rt, &mut book, &mut publisher, publications.as_slice()) {
        Ok(()) => {
            if let Some(queue) = queue {
                queue.add_left(rt, book.state());
            }
            Ok(Shared::new(alloc, book, publisher, store, tally))
        }
        Err(refused) => {
            publisher.close(rt);
            drop(book);
            Err(refused)
        }
    }
}
