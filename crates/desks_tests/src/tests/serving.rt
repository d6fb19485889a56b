//! A session that desks and displays share, for as long as a part of a test takes.

ghost use Rattle.std.specs.Prelude.{◌≡◌, [], IfSome};
ghost use Rattle.desks.specs.Kept.{LeavesJust};
ghost use Rattle.desks.specs.Places.{IsTallyOf};

use super::session::session;
use super::texts::Beside;
use desks::{DeskPlaces, Shared, new_tally};
use displays::{Display, Server, open_displays};
use entry_store::{EntryStore, NoStore};
use history::History;
use opened_session::{OpenedSession, open_session};
use published_view::View;
use session_book::Book;
use std::alloc::Global;
use std::marker::Brand;
use std::sync::Wait;
use std::sync::ledger::Blank;

/// What is done in a session that desks and displays share.
pub(super) trait Part {
    /// Whether it goes as it should.
    fn goes<N: Server, R: Wait>(
        &self,
        rt: &R,
        alloc: Global,
        shared: &Shared<N, NoStore>,
        places: DeskPlaces<N>,
        displays: Vec<Display<N>>,
    ) -> bool;
}

/// Whether a part goes as it should in a session that was just opened, with so many displays.
pub(super) fn is_served<R: Wait, P: Part>(
    rt: &R,
    alloc: Global,
    displays: usize,
    part: &P,
) -> bool {
    match opened_book(alloc) {
        Some(book) => {
            let history = History::new();
            let tally = new_tally();
            is_served_by::<Brand, R, P>(rt, alloc, book, history, tally, displays, part)
        }
        None => false,
    }
}

// The same, under a server's name.
fn is_served_by<N: Server, R: Wait, P: Part>(
    rt: &R,
    alloc: Global,
    book: Book,
    history: History,
    tally: Blank,
    displays: usize,
    part: &P,
) -> bool
    requires journal { book.journal ≡ [] }
    requires opening { book.opening ≡ N.opening }
    requires history { history ≡ N.history }
    requires tally { IsTallyOf N.name N.parts tally.name tally.parts }
{
    match shared_by::<N, NoStore, R>(rt, alloc, book, history, tally, displays, NoStore) {
        Some((shared, places, displays)) => {
            let goes = part.goes(rt, alloc, &shared, places, displays);
            let _store = shared.close(rt);
            goes
        }
        None => false,
    }
}

/// The book of the session, just opened.
pub(super) fn opened_book(alloc: Global) -> Option<Book>
    ensures { IfSome result (λ book. book.journal ≡ []) }
{
    match open_session(alloc, session().as_bytes(), None) {
        Ok(OpenedSession { book, .. }) => Some(book),
        Err(_) => None,
    }
}

/// A book as desks share it with a store in which nothing is kept yet, and so many displays, if there is a place for them.
pub(super) fn shared_by<N: Server, K: EntryStore, R: Wait>(
    rt: &R,
    alloc: Global,
    book: Book,
    history: History,
    tally: Blank,
    displays: usize,
    store: K,
) -> Option<(Shared<N, K>, DeskPlaces<N>, Vec<Display<N>>)>
    requires journal { book.journal ≡ [] }
    requires opening { book.opening ≡ N.opening }
    requires history { history ≡ N.history }
    requires tally { IsTallyOf N.name N.parts tally.name tally.parts }
    requires store { LeavesJust [] (K.doubt store) (K.leaves store) }
{
    let (Ok(first), Ok(second)) = (View::open(alloc, &book), View::open(alloc, &book)) else {
        return None;
    };
    match open_displays::<N, R>(rt, alloc, history, first, second, displays) {
        Ok((publisher, displays)) => {
            let (shared, places) = Shared::new(alloc, book, publisher, store, tally);
            Some((shared, places, displays))
        }
        Err(_) => None,
    }
}

/// One more desk, beside a display that nobody else asks; if there are both.
pub(super) fn beside<'a, N: Server, K: EntryStore>(
    shared: &'a Shared<N, K>,
    places: &mut DeskPlaces<N>,
    displays: &mut Vec<Display<N>>,
) -> Option<Beside<'a, N, K>> {
    let place = places.take()?;
    let display = displays.pop()?;
    Some(Beside {
        desk: shared.desk(place),
        display,
    })
}
