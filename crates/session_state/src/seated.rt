ghost use Rattle.std.specs.Prelude.{◌≡◌};
ghost use Rattle.session_state.specs.Seats.{is_of_side};

use disclosure_rules::Seat;
use table_terms::{Pair, Place, Side};
use user_names::Name;

/// A user, and where the user sits.
#[derive(Clone, Copy)]
pub struct Seated {
    pub name: Name,
    pub seat: Seat,
}

/// Whether the place is one of the pair's side.
pub fn is_of_side(pair: Pair, place: Place) -> bool
    ensures { result ≡ is_of_side pair place }
{
    match place {
        Place::North | Place::South => matches!(pair.side, Side::NorthSouth),
        Place::East | Place::West => matches!(pair.side, Side::EastWest),
    }
}
