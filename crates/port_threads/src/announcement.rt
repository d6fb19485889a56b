//! What is told once clients can come.

ghost use Rattle.std.specs.Prelude.{ℕ, Option, List};

use std::io::Write;

/// What is told once a port is open.
pub trait Announcement {
    // What is told, from the bytes before to the bytes behind.
    ghost tells: { Self → Option (List ℕ) → Option (List ℕ) → Type 0 };

    /// Tells it, as far as what it is written to takes it.
    fn announce<E: Write>(&self, errors: &mut E)
        ensures { tells self.now (E.contents errors.old) (E.contents errors.new) };
}
