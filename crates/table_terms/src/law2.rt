ghost use Rattle.std.specs.Prelude.{◌≤◌};
ghost use Rattle.table_terms.specs.Law2.{IsDealer, IsMarked};

use crate::place::Place;
use crate::vulnerability::Vulnerability;

/// Who deals a board, from 1 (Law 2).
pub fn dealer_of(board: u8) -> Place
    requires { 1 ≤ board }
    ensures { IsDealer board result }
{
    match (board - 1) % 4 {
        0 => Place::North,
        1 => Place::East,
        2 => Place::South,
        _ => Place::West,
    }
}

/// Which sides are vulnerable on a board, from 1 (Law 2).
pub fn vulnerability_of(board: u8) -> Vulnerability
    requires { 1 ≤ board }
    ensures { IsMarked board result }
{
    // The four markings take turns, and each four boards begin one marking later.
    let place = (board - 1) % 16;
    match (place + place / 4) % 4 {
        0 => Vulnerability::Neither,
        1 => Vulnerability::NorthSouth,
        2 => Vulnerability::EastWest,
        _ => Vulnerability::Both,
    }
}
