//! How many clients are served at once.

ghost use Rattle.std.specs.Prelude.{◌≡◌, ◌↔◌, IsTrue};
ghost use Rattle.hall_terms.specs.Room.{HasRoom, most_strangers};

/// How many clients are served at once at most.
pub const MOST_CLIENTS: u32 = 10_000;

/// How many of so many clients may be ones on whose connection nobody is signed in: a tenth, and at least one, so that
/// strangers can't fill the room.
pub fn most_strangers(clients: u32) -> u32
    ensures { result ≡ most_strangers clients }
{
    (clients / 10).max(1)
}

/// Whether one more client may come where so many places are taken, so many of them by strangers.
pub fn has_room(places: u32, taken: u32, strangers: u32) -> bool
    ensures { IsTrue result ↔ HasRoom places taken strangers }
{
    taken < places && strangers < most_strangers(places)
}
