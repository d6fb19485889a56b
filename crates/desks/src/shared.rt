//! The lock.

ghost use Rattle.std.specs.Prelude.{◌≡◌, List, []};
ghost use Rattle.desks.specs.Places.{IsTallyOf};
ghost use Rattle.session_commands.specs.declared.entry.Entry.{Entry};
ghost use Rattle.history.specs.Prefixes.{entries_of};
ghost use Rattle.displays.specs.Copies.{IsPublished};
ghost use Rattle.desks.specs.Kept.{IsKeptBy, LeavesJust};

use crate::desk::Desk;
use crate::desk_places::{DeskPlace, DeskPlaces};
use crate::locked_book::LockedBook;
use displays::{Publisher, Server};
use entry_store::EntryStore;
use session_book::Book;
use std::alloc::Global;
use std::sync::ledger::Blank;
use std::sync::{Mutex, Wait};

/// A book, its publisher and its store, which desks in threads share: what is under the lock keeps that the journal leads to
/// the state, that it is what was published, that nothing is pending, and that whatever a crash leaves is what was
/// published, or, where the store has shut, maybe one publication more. It can't be dropped: `close` ends it.
pub struct Shared<N: Server, K: EntryStore> {
    lock: Mutex<LockedBook<N, K>>,
}

impl<N: Server, K: EntryStore> Shared<N, K> {
    /// The lock round a book, its publisher, and a store in which just what is published is kept; and the places of its
    /// desks. It takes no memory.
    pub fn new(
        alloc: Global,
        book: Book,
        publisher: Publisher<N>,
        store: K,
        tally: Blank,
    ) -> (Shared<N, K>, DeskPlaces<N>)
        requires opening { book.opening ≡ N.opening }
        requires published { (entries_of publisher.published ≡ book.journal) × (publisher.pending ≡ []) }
        requires kept { LeavesJust publisher.published (K.doubt store) (K.leaves store) }
        requires tally { IsTallyOf N.name N.parts tally.name tally.parts }
    {
        let (mut entered, mut share) = tally.open::<N>();
        entered.add(&mut share, book.version() as u64);
        let shared = Shared {
            lock: Mutex::new(LockedBook::new(alloc, book, publisher, store, entered)),
        };
        (shared, DeskPlaces::of(share))
    }

    /// The desk of a place. It has entered nothing yet.
    pub fn desk(&self, place: DeskPlace<N>) -> Desk<'_, N, K>
        ensures { result ≡ 0 }
    {
        Desk::over(&self.lock, place)
    }

    /// Drops the book, takes the two copies back, and gives the store back: whatever a crash leaves of it is what was
    /// published. It may wait for readers.
    pub fn close<R: Wait>(self, rt: &R) -> K
        ensures kept { (published : List (List Entry)) × IsPublished N.opening published
            × IsKeptBy N.opening published (K.doubt result) (K.is_open result) (K.leaves result) }
    {
        let Shared { lock } = self;
        lock.into_inner().close(rt)
    }
}
