//! Boards whose par DDS's authors give (the first two, of either declarer), and others worked by hand.

use crate::auction::par_of_board;
use query_filter::{StrainTricks, TrickTable};
use scoring::{Contract, Doubling, Level, Outcome, Tricks};
use table_terms::{Place, Strain, Vulnerability};

// East and West make 2 spades, and nobody gains by going on.
static PART_SCORE: TrickTable = TrickTable {
    spades: StrainTricks {
        north: 5,
        east: 8,
        south: 5,
        west: 8,
    },
    hearts: StrainTricks {
        north: 6,
        east: 6,
        south: 6,
        west: 6,
    },
    diamonds: StrainTricks {
        north: 5,
        east: 7,
        south: 5,
        west: 7,
    },
    clubs: StrainTricks {
        north: 7,
        east: 5,
        south: 7,
        west: 5,
    },
    no_trump: StrainTricks {
        north: 6,
        east: 6,
        south: 6,
        west: 6,
    },
};

// North and South make 4 hearts; East and West lose less in 4 spades, which are doubled.
static SACRIFICE: TrickTable = TrickTable {
    spades: StrainTricks {
        north: 4,
        east: 9,
        south: 4,
        west: 9,
    },
    hearts: StrainTricks {
        north: 10,
        east: 2,
        south: 10,
        west: 2,
    },
    diamonds: StrainTricks {
        north: 8,
        east: 3,
        south: 8,
        west: 3,
    },
    clubs: StrainTricks {
        north: 6,
        east: 7,
        south: 6,
        west: 7,
    },
    no_trump: StrainTricks {
        north: 9,
        east: 3,
        south: 9,
        west: 3,
    },
};

// North, South and East each make 1 no trump: whoever calls first has it.
static FIRST_BIDDER: TrickTable = TrickTable {
    spades: StrainTricks {
        north: 6,
        east: 7,
        south: 6,
        west: 6,
    },
    hearts: StrainTricks {
        north: 7,
        east: 6,
        south: 7,
        west: 6,
    },
    diamonds: StrainTricks {
        north: 6,
        east: 7,
        south: 6,
        west: 7,
    },
    clubs: StrainTricks {
        north: 6,
        east: 7,
        south: 6,
        west: 7,
    },
    no_trump: StrainTricks {
        north: 7,
        east: 7,
        south: 7,
        west: 6,
    },
};

// Nobody makes a contract.
static NOTHING: TrickTable = TrickTable {
    spades: StrainTricks {
        north: 6,
        east: 6,
        south: 6,
        west: 6,
    },
    hearts: StrainTricks {
        north: 6,
        east: 6,
        south: 6,
        west: 6,
    },
    diamonds: StrainTricks {
        north: 6,
        east: 6,
        south: 6,
        west: 6,
    },
    clubs: StrainTricks {
        north: 6,
        east: 6,
        south: 6,
        west: 6,
    },
    no_trump: StrainTricks {
        north: 6,
        east: 6,
        south: 6,
        west: 6,
    },
};

// Whether a board comes to this.
fn comes_to(
    table: &TrickTable,
    vulnerability: Vulnerability,
    dealer: Place,
    score: i32,
    outcome: &Option<Outcome>,
) -> bool {
    match (&par_of_board(table, vulnerability, dealer), outcome) {
        (Some(par), Some(outcome)) => par.score == score && par.outcome == *outcome,
        _ => false,
    }
}

fn played(
    level: u8,
    strain: Strain,
    declarer: Place,
    doubling: Doubling,
    tricks: u8,
) -> Option<Outcome> {
    Some(Outcome::Played {
        contract: Contract {
            level: Level::new(level)?,
            strain,
            declarer,
            doubling,
        },
        tricks: Tricks::new(tricks)?,
    })
}

#[test]
fn a_side_has_what_it_makes(rt: HostRuntime) {
    let two_spades = played(2, Strain::Spades, Place::West, Doubling::Undoubled, 8);
    assert!(rt;
        comes_to(
            &PART_SCORE,
            Vulnerability::Neither,
            Place::North,
            -110,
            &two_spades
        )
    );
}

#[test]
fn a_sacrifice_is_doubled(rt: HostRuntime) {
    let four_spades = played(4, Strain::Spades, Place::West, Doubling::Doubled, 9);
    assert!(rt;
        comes_to(
            &SACRIFICE,
            Vulnerability::NorthSouth,
            Place::East,
            100,
            &four_spades
        )
    );
}

#[test]
fn the_first_bidder_has_it(rt: HostRuntime) {
    let norths = played(1, Strain::NoTrump, Place::North, Doubling::Undoubled, 7);
    assert!(rt;
        comes_to(
            &FIRST_BIDDER,
            Vulnerability::Neither,
            Place::North,
            90,
            &norths
        )
    );
    let easts = played(1, Strain::NoTrump, Place::East, Doubling::Undoubled, 7);
    assert!(rt;
        comes_to(
            &FIRST_BIDDER,
            Vulnerability::Neither,
            Place::East,
            -90,
            &easts
        )
    );
}

#[test]
fn a_board_may_be_passed_out(rt: HostRuntime) {
    assert!(rt;
        comes_to(
            &NOTHING,
            Vulnerability::Both,
            Place::West,
            0,
            &Some(Outcome::PassedOut)
        )
    );
}

#[test]
fn fourteen_tricks_have_no_par(rt: HostRuntime) {
    let mut table = NOTHING;
    table.no_trump.west = 14;
    assert!(rt; par_of_board(&table, Vulnerability::Neither, Place::North).is_none());
}
