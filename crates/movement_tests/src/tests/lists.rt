//! A movement of three tables in which each pair meets each other and each set once, and lists that can't be played.

use super::pairs::{ew, ns};
use movement::{Limits, ListError, Movement, MovementError, MovementFault, Row, first_misplaced};
use std::alloc::AllocError;
use table_terms::Pair;

const ROWS: usize = 15;

fn row(round: u8, table: u8, set: u8, north_south: Pair, east_west: Pair) -> Row {
    Row {
        round,
        table,
        set,
        north_south,
        east_west,
    }
}

/// Each pair is named by the place where it begins. In the first round all three tables play set 1.
fn howell_of_three() -> [Row; ROWS] {
    [
        row(1, 1, 1, ns(1), ew(1)),
        row(1, 2, 1, ns(2), ew(2)),
        row(1, 3, 1, ns(3), ew(3)),
        row(2, 1, 2, ew(3), ns(1)),
        row(2, 2, 5, ew(1), ns(2)),
        row(2, 3, 3, ns(3), ew(2)),
        row(3, 1, 4, ns(1), ew(2)),
        row(3, 2, 3, ew(3), ew(1)),
        row(3, 3, 2, ns(3), ns(2)),
        row(4, 1, 5, ns(3), ns(1)),
        row(4, 2, 2, ew(1), ew(2)),
        row(4, 3, 4, ew(3), ns(2)),
        row(5, 1, 3, ns(1), ns(2)),
        row(5, 2, 4, ew(1), ns(3)),
        row(5, 3, 5, ew(2), ew(3)),
    ]
}

fn limits(shared_by: u8) -> Limits {
    Limits {
        rounds: 5,
        tables: 3,
        sets: 5,
        shared_by,
    }
}

/// The fault of a list whose row at a place is another.
fn fault_with(place: usize, other: Row) -> Option<MovementFault> {
    let mut rows = howell_of_three();
    if place < ROWS {
        rows[place] = other;
    }
    match first_misplaced(limits(3), &rows) {
        Some(misplaced) if misplaced.place == place => Some(misplaced.fault),
        _ => None,
    }
}

/// It can be played where three tables may share a set, and not where two may.
#[test]
fn three_tables_share_a_set(rt: HostRuntime) {
    let rows = howell_of_three();
    assert!(rt; first_misplaced(limits(3), &rows).is_none());
    assert!(rt;
        matches!(first_misplaced(limits(2), &rows), Some(misplaced)
        if misplaced.place == 2 && misplaced.fault == MovementFault::SharedByTooMany)
    );
}

/// Each fault is named at the row that has it, and the first of several.
#[test]
fn each_fault_is_named(rt: HostRuntime) {
    assert!(rt; fault_with(1, row(6, 2, 1, ns(2), ew(2))) == Some(MovementFault::OutOfRange));
    assert!(rt; fault_with(1, row(1, 2, 1, ns(2), ns(2))) == Some(MovementFault::OutOfRange));
    assert!(rt; fault_with(1, row(1, 1, 2, ns(2), ew(2))) == Some(MovementFault::TableTwice));
    assert!(rt; fault_with(3, row(2, 1, 1, ew(3), ns(1))) == Some(MovementFault::SetAtTableAgain));
    assert!(rt; fault_with(1, row(1, 2, 2, ns(1), ew(2))) == Some(MovementFault::PairTwice));
    assert!(rt; fault_with(4, row(2, 2, 1, ew(1), ns(2))) == Some(MovementFault::SetAtTableAgain));
    assert!(rt; fault_with(3, row(2, 1, 2, ns(1), ew(1))) == Some(MovementFault::OpponentsAgain));
    assert!(rt; fault_with(3, row(2, 1, 2, ew(1), ns(1))) == Some(MovementFault::OpponentsAgain));
    assert!(rt; fault_with(6, row(3, 1, 3, ns(3), ew(1))) == Some(MovementFault::SetAgain));
}

/// Who plays a board, where and when.
#[test]
fn a_pair_finds_its_cells(rt: HostRuntime) {
    let rows = howell_of_three();
    let Ok(movement) = Movement::listed(limits(3), 1, None, &rows) else {
        panic!(rt; "no movement")
    };
    assert!(rt; movement.tables() == 3 && movement.rounds() == 5 && movement.sets() == 5);
    assert!(rt; movement.per_set() == 1 && movement.boards() == 5);
    assert!(rt; movement.is_named() && movement.absent().is_none());
    // NS1 plays board 2 at table 1 in the second round, East-West against EW3
    assert!(rt;
        matches!(movement.cell_of(ns(1), 2), Some(cell)
        if cell.table == 1 && movement.round_of(cell) == 2 && movement.north_south_at(cell) == ew(3))
    );
    // board 2 is played at table 3 in the third round, and at table 2 in the fourth
    assert!(rt;
        matches!(movement.cell_of(ns(2), 2), Some(cell)
        if cell.table == 3 && movement.round_of(cell) == 3 && movement.east_west_at(cell) == ns(2))
    );
    assert!(rt;
        matches!(movement.cell_of(ew(1), 2), Some(cell) if cell.table == 2 && movement.round_of(cell) == 4)
    );
    // there is no pair NS4, and no board 6
    assert!(rt; movement.cell_of(ns(4), 2).is_none());
    assert!(rt; movement.cell_of(ns(1), 6).is_none());
    assert!(rt; movement.cell(4, 1).is_none());
}

/// The places of the rows, by set and then by table: round, table and set.
const PLACES: [(u8, u8, u8); ROWS] = [
    (1, 1, 1),
    (1, 2, 1),
    (1, 3, 1),
    (2, 1, 2),
    (4, 2, 2),
    (3, 3, 2),
    (5, 1, 3),
    (3, 2, 3),
    (2, 3, 3),
    (3, 1, 4),
    (5, 2, 4),
    (4, 3, 4),
    (4, 1, 5),
    (2, 2, 5),
    (5, 3, 5),
];

/// The rows stand in one order, in whatever order the list has them.
#[test]
fn rows_stand_by_set_and_table(rt: HostRuntime) -> Result<(), AllocError> {
    let mut rows = howell_of_three();
    rows.reverse();
    let Ok(movement) = Movement::listed(limits(3), 1, None, &rows) else {
        panic!(rt; "no movement")
    };
    let movement = movement.copy();
    let mut places = Vec::new(rt.alloc());
    for row in movement.rows(rt.alloc())?.as_slice() {
        places.push((row.round, row.table, row.set))?;
    }
    assert!(rt; places.as_slice() == PLACES.as_slice());
    Ok(())
}

/// Numbers that no movement has are refused first.
#[test]
fn numbers_are_refused_first(rt: HostRuntime) {
    let rows = howell_of_three();
    assert!(rt;
        matches!(
            Movement::listed(limits(2), 9, None, &rows),
            Err(ListError::BadSets)
        )
    );
    assert!(rt;
        matches!(Movement::listed(limits(2), 1, None, &rows), Err(ListError::BadRow(misplaced))
        if misplaced.place == 2)
    );
}

/// Whether just these tables are scheduled to play a board.
fn is_scheduled_at(movement: &Movement, board: u8, tables: [u8; 2]) -> bool {
    let scheduled = movement.scheduled(board);
    for table in 1..=3 {
        if scheduled.contains(table) != (table == tables[0] || table == tables[1]) {
            return false;
        }
    }
    true
}

/// Where a pair is absent, its rows aren't played; a pair that no row seats can't be absent.
#[test]
fn a_pair_may_be_absent(rt: HostRuntime) {
    let rows = howell_of_three();
    let Ok(movement) = Movement::listed(limits(3), 1, Some(ew(3)), &rows) else {
        panic!(rt; "no movement")
    };
    assert!(rt; is_scheduled_at(&movement, 1, [1, 2]));
    assert!(rt; is_scheduled_at(&movement, 2, [2, 3]));
    assert!(rt; is_scheduled_at(&movement, 3, [1, 3]));
    assert!(rt; is_scheduled_at(&movement, 4, [1, 2]));
    assert!(rt; is_scheduled_at(&movement, 5, [1, 2]));
    assert!(rt; movement.has_pair(ew(2)));
    assert!(rt; !movement.has_pair(ew(3)));
    assert!(rt; !movement.has_pair(ns(4)));
    assert!(rt;
        matches!(
            Movement::listed(limits(3), 1, Some(ns(4)), &rows),
            Err(ListError::BadPair)
        )
    );
}

/// The Mitchell of three tables, by the schedule of a session of three rounds.
#[test]
fn the_mitchell_is_a_list(rt: HostRuntime) {
    let Ok(movement) = Movement::new(3, 3, 1) else {
        panic!(rt; "no movement")
    };
    assert!(rt;
        matches!(movement.cell_of(ew(1), 3), Some(cell)
        if cell.table == 2 && movement.round_of(cell) == 2 && movement.north_south_at(cell) == ns(2))
    );
    assert!(rt;
        matches!(movement.cell_of(ew(1), 2), Some(cell)
        if cell.table == 3 && movement.round_of(cell) == 3 && movement.north_south_at(cell) == ns(3))
    );
    assert!(rt; movement.has_pair(ns(3)));
    assert!(rt; !movement.has_pair(ns(4)));
    assert!(rt; movement.sets() == 3 && !movement.is_named());
}

/// A Mitchell's refusals are those of its numbers, and with an absent pair it plays what is left.
#[test]
fn a_mitchell_may_miss_a_pair(rt: HostRuntime) {
    assert!(rt; matches!(Movement::new(3, 4, 1), Err(MovementError::BadRounds)));
    let Ok(movement) = Movement::with_absent(3, 3, 1, Some(ew(3))) else {
        panic!(rt; "no movement")
    };
    // EW3 would play board 3 at table 3 in the first round, board 2 at table 1 in the second and board 1 at table 2
    assert!(rt; is_scheduled_at(&movement, 3, [1, 2]));
    assert!(rt; is_scheduled_at(&movement, 2, [2, 3]));
    assert!(rt; is_scheduled_at(&movement, 1, [1, 3]));
    assert!(rt; movement.absent() == Some(ew(3)));
    assert!(rt; !movement.has_pair(ew(3)));
}
