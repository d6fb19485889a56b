//! Desks, from which threads put commands into one book under a lock: what a batch had accepted is kept by a store, then
//! published at once, as one publication, before the lock is let go. A desk and a display together keep a session for a
//! connection.
#![tactic(auto)]

pub mod batches;
mod desk;
mod desk_keeper;
mod desk_places;
mod locked_book;
mod reentry;
mod shared;

pub use desk::Desk;
pub use desk_keeper::DeskKeeper;
pub use desk_places::{DeskPlace, DeskPlaces, MOST_DESKS, new_tally};
pub use locked_book::LockedBook;
pub use reentry::{ReentryFault, reenter, reenter_all};
pub use shared::Shared;
