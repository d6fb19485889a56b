//! How many clients are served at once, counted by all threads together.

use hall_terms::has_room;
use std::cell::Cell;
use std::sync::atomic::{AtomicU32, Ordering};

/// How many clients there are in a hall, and how many of them are strangers, on whose connections nobody is signed in. Threads
/// share it.
#[derive(Drop)]
pub struct Room {
    places: u32,
    taken: AtomicU32,
    strangers: AtomicU32,
}

impl Room {
    /// A room with so many places, and nobody in it.
    pub fn new(places: u32) -> Room {
        Room {
            places,
            taken: AtomicU32::new(0),
            strangers: AtomicU32::new(0),
        }
    }

    /// A place for one more client, a stranger at first, if there is one. Where several threads ask at the same time there may
    /// be none for a moment.
    pub fn take(&self) -> Option<HallPlace<'_>> {
        let place = self.enter();
        if place.is_within { Some(place) } else { None }
    }

    // Counts one more, whether there is room or not.
    fn enter(&self) -> HallPlace<'_> {
        let taken = self.taken.fetch_add(1, Ordering::SeqCst);
        let strangers = self.strangers.fetch_add(1, Ordering::SeqCst);
        HallPlace {
            room: self,
            is_strangers: Cell::new(true),
            is_within: has_room(self.places, taken, strangers),
        }
    }
}

/// A client's place in a room. It is free again once it is dropped.
pub struct HallPlace<'a> {
    room: &'a Room,
    is_strangers: Cell<bool>,
    is_within: bool,
}

impl<'a> HallPlace<'a> {
    /// Tells whether somebody is signed in on the client's connection.
    pub fn tell(&self, is_signed_in: bool) {
        if is_signed_in == self.is_strangers.get() {
            if is_signed_in {
                self.room.strangers.fetch_sub(1, Ordering::SeqCst);
            } else {
                self.room.strangers.fetch_add(1, Ordering::SeqCst);
            }
            self.is_strangers.set(!is_signed_in);
        }
    }
}

impl<'a> Drop for HallPlace<'a> {
    fn drop(self) {
        if self.is_strangers.get() {
            self.room.strangers.fetch_sub(1, Ordering::SeqCst);
        }
        self.room.taken.fetch_sub(1, Ordering::SeqCst);
        let HallPlace {
            room: _,
            is_strangers: _,
            is_within: _,
        } = self;
    }
}
