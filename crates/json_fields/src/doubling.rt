//! Numbers that say how often a contract was doubled.

ghost use Rattle.std.specs.Prelude.{◌≡◌};
ghost use Rattle.json_fields.specs.Doubling.{doubling_numbered};

use scoring::Doubling;

/// The doubling of a contract that was doubled so often: 0 to 2.
pub fn doubling_numbered(number: u8) -> Option<Doubling>
    ensures { result ≡ doubling_numbered number }
{
    match number {
        0 => Some(Doubling::Undoubled),
        1 => Some(Doubling::Doubled),
        2 => Some(Doubling::Redoubled),
        _ => None,
    }
}
