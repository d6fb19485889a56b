//! A session that is kept alone.

use opened_session::{OpenedSession, open_session};
use session_keeper::PlainKeeper;
use std::alloc::Global;

/// The keeper of the session of an object, if it opens one. The object's budget has no use here: no message asks for a
/// solver, and the one that a line speaks for has visits of its own.
pub(crate) fn keeper_of(alloc: Global, object: &str) -> Option<PlainKeeper> {
    match open_session(alloc, object.as_bytes(), None) {
        Ok(OpenedSession { book, .. }) => PlainKeeper::new(alloc, book).ok(),
        Err(_) => None,
    }
}
