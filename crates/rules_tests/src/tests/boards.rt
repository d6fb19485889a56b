//! The markings of boards, as Law 2 prints them.

use table_terms::{Place, Vulnerability, dealer_of, vulnerability_of};

/// The dealer and the marking of boards 1 to 16.
static PRINTED: [(Place, Vulnerability); 16] = [
    (Place::North, Vulnerability::Neither),
    (Place::East, Vulnerability::NorthSouth),
    (Place::South, Vulnerability::EastWest),
    (Place::West, Vulnerability::Both),
    (Place::North, Vulnerability::NorthSouth),
    (Place::East, Vulnerability::EastWest),
    (Place::South, Vulnerability::Both),
    (Place::West, Vulnerability::Neither),
    (Place::North, Vulnerability::EastWest),
    (Place::East, Vulnerability::Both),
    (Place::South, Vulnerability::Neither),
    (Place::West, Vulnerability::NorthSouth),
    (Place::North, Vulnerability::Both),
    (Place::East, Vulnerability::Neither),
    (Place::South, Vulnerability::NorthSouth),
    (Place::West, Vulnerability::EastWest),
];

/// Whether the board after so many has the dealer and the marking of its like among the first sixteen.
fn is_marked(before: usize) -> bool {
    let (dealer, vulnerability) = PRINTED[before % 16];
    let board = (before % 128) as u8 + 1;
    dealer_of(board) == dealer && vulnerability_of(board) == vulnerability
}

/// Boards 1 to 64, and on to 128: each further sixteen repeat the first.
#[test]
fn marks_boards_as_law_2_does(rt: HostRuntime) {
    for before in 0..128 {
        assert!(rt; is_marked(before));
    }
}
