//! Rounds of Mitchell movements, as they are walked at the tables.

ghost use Rattle.std.specs.Prelude.{◌≤◌};

use super::pairs::ns;
use mitchell::{Mitchell, MovementError};

/// Whether a table plays a set against an East-West pair in a round.
fn is_row(section: Mitchell, round: u8, table: u8, set: u8, pair: u8) -> bool
    requires from_table { 1 ≤ table }
    requires to_table { table ≤ section.tables }
    requires from_round { 1 ≤ round }
    requires to_round { round ≤ section.rounds }
{
    section.set_at(table, round) == set && section.ew_at(table, round).number == pair
}

/// Pairs go up a table a round and sets down one.
#[test]
fn three_tables_play_three_rounds(rt: HostRuntime) {
    let Ok(section) = Mitchell::new(3, 3, 2, None) else {
        panic!(rt; "no movement")
    };
    assert!(rt; is_row(section, 2, 1, 2, 3));
    assert!(rt; is_row(section, 2, 2, 3, 1));
    assert!(rt; is_row(section, 2, 3, 1, 2));
    assert!(rt; section.tables() == 3 && section.rounds() == 3 && section.per_set() == 2);
}

/// After half of the rounds of four tables the pairs skip one.
#[test]
fn pairs_of_four_tables_skip_one(rt: HostRuntime) {
    let Ok(section) = Mitchell::new(4, 3, 2, None) else {
        panic!(rt; "no movement")
    };
    assert!(rt; is_row(section, 3, 1, 3, 2));
    assert!(rt; is_row(section, 3, 2, 4, 3));
    assert!(rt; is_row(section, 3, 3, 1, 4));
    assert!(rt; is_row(section, 3, 4, 2, 1));
}

/// Where a pair is absent, its table doesn't play.
#[test]
fn who_meets_an_absent_pair_sits_out(rt: HostRuntime) {
    let Ok(section) = Mitchell::new(3, 3, 1, Some(ns(2))) else {
        panic!(rt; "no movement")
    };
    assert!(rt; section.absent() == Some(ns(2)));
    assert!(rt; section.is_absent(ns(2)) && !section.is_absent(ns(1)));
    assert!(rt; section.plays(1, 2) && !section.plays(2, 2) && section.plays(3, 2));
}

/// The first limit that is broken is named.
#[test]
fn numbers_that_cannot_be_played_are_refused(rt: HostRuntime) {
    assert!(rt; matches!(Mitchell::new(2, 9, 9, None), Err(MovementError::BadTables)));
    assert!(rt; matches!(Mitchell::new(4, 4, 9, None), Err(MovementError::BadRounds)));
    assert!(rt; matches!(Mitchell::new(16, 15, 8, Some(ns(3))), Ok(_)));
    assert!(rt; matches!(Mitchell::new(16, 15, 9, None), Err(MovementError::BadSets)));
    assert!(rt;
        matches!(
            Mitchell::new(3, 3, 1, Some(ns(4))),
            Err(MovementError::BadPair)
        )
    );
}
