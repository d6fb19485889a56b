//! The Mitchell movement as it is walked through round by round: its formulas, and the list of rows that is kept of it.

use mitchell::Mitchell;
use movement::{Cell, Movement, MovementError};
use table_terms::{Pair, Side};

/// What is at the tables, from table 1 on: the pairs, or how many sets are before the table's.
type Seats = [u8; 16];

const PAIRS: Seats = [1, 2, 3, 4, 5, 6, 7, 8, 9, 10, 11, 12, 13, 14, 15, 16];

const SETS: Seats = [0, 1, 2, 3, 4, 5, 6, 7, 8, 9, 10, 11, 12, 13, 14, 15];

/// Each moves up a table, and the last comes to table 1.
fn move_up(seats: &mut Seats, tables: u8) {
    for i in 1..usize::from(tables).min(16) {
        seats.swap(0, i);
    }
}

/// Each moves down a table, and the first comes to the last table.
fn move_down(seats: &mut Seats, tables: u8) {
    for i in 1..usize::from(tables).min(16) {
        seats.swap(i - 1, i);
    }
}

/// The pair that stays North-South at a table.
fn north_south(table: u8) -> Pair {
    Pair {
        side: Side::NorthSouth,
        number: table,
    }
}

/// Whether a pair's cell is at this table.
fn is_at(cell: Option<Cell>, table: u8) -> bool {
    matches!(cell, Some(cell) if cell.table == table)
}

/// Whether a table plays a board in a round, and which two pairs sit there.
fn is_played(movement: &Movement, table: u8, board: u8, round: u8, against: Pair) -> bool {
    let Some(cell) = movement.cell(table, board) else {
        return false;
    };
    let there = north_south(table);
    movement.round_of(cell) == round
        && movement.north_south_at(cell) == there
        && movement.east_west_at(cell) == against
        && movement.scheduled(board).contains(table)
        && is_at(movement.cell_of(there, board), table)
        && is_at(movement.cell_of(against, board), table)
}

/// Whether a table plays this pair in a round, and the boards that come after so many sets.
fn is_row(movement: &Movement, table: u8, round: u8, pair: u8, before: u8) -> bool {
    let first = before.wrapping_mul(movement.per_set());
    let against = Pair {
        side: Side::EastWest,
        number: pair,
    };
    for k in 1..=movement.per_set() {
        if !is_played(movement, table, first.wrapping_add(k), round, against) {
            return false;
        }
    }
    true
}

/// The same by the formulas.
fn is_by_formula(mitchell: Mitchell, table: u8, round: u8, pair: u8, before: u8) -> bool {
    if table < 1 || mitchell.tables() < table || round < 1 || mitchell.rounds() < round {
        return false;
    }
    mitchell.plays(table, round)
        && mitchell.ew_at(table, round).number == pair
        && mitchell.set_at(table, round) == before.wrapping_add(1)
}

/// Whether each table's row in a round is so.
fn is_round(
    mitchell: Mitchell,
    movement: &Movement,
    round: u8,
    pairs: &Seats,
    sets: &Seats,
) -> bool {
    for i in 0..16 {
        let table = i as u8 + 1;
        if table <= movement.tables()
            && !(is_row(movement, table, round, pairs[i], sets[i])
                && is_by_formula(mitchell, table, round, pairs[i], sets[i]))
        {
            return false;
        }
    }
    true
}

/// How many boards are scheduled at a table.
fn boards_at(movement: &Movement, table: u8) -> u8 {
    let mut boards = 0u8;
    for board in 1..=movement.boards() {
        if movement.cell(table, board).is_some() {
            boards = boards.wrapping_add(1);
        }
    }
    boards
}

/// Whether each table is scheduled to play as many boards as it has rounds for, and so none but those that are walked.
fn plays_no_more(movement: &Movement) -> bool {
    let boards = movement.rounds().wrapping_mul(movement.per_set());
    for table in 1..=movement.tables() {
        if boards_at(movement, table) != boards {
            return false;
        }
    }
    true
}

/// After each round the East-West pairs move up a table and the sets down one, and at an even number of tables the
/// pairs skip one more in the middle. No table plays anything else.
fn is_walked(mitchell: Mitchell, movement: &Movement) -> bool {
    let tables = movement.tables();
    let mut pairs = PAIRS;
    let mut sets = SETS;
    for round in 1..=movement.rounds() {
        if !is_round(mitchell, movement, round, &pairs, &sets) {
            return false;
        }
        move_up(&mut pairs, tables);
        move_down(&mut sets, tables);
        if tables % 2 == 0 && round == tables / 2 {
            move_up(&mut pairs, tables);
        }
    }
    plays_no_more(movement)
}

/// Whether a movement is as walked, or refused because there are too many rounds. An even number of tables plays a round
/// less than there are tables.
fn is_walked_or_refused(tables: u8, rounds: u8, per_set: u8) -> bool {
    let most = tables.saturating_sub(1) | 1;
    match (
        Mitchell::new(tables, rounds, per_set, None),
        Movement::new(tables, rounds, per_set),
    ) {
        (Ok(mitchell), Ok(movement)) => rounds <= most && is_walked(mitchell, &movement),
        (Err(_), Err(_)) => rounds > most,
        _ => false,
    }
}

/// 3 to 16 tables, up to as many rounds, and up to 8 boards in a set.
#[test]
fn movements_are_as_walked(rt: HostRuntime) {
    for case in 0u16..1_024 {
        let tables = (case / 64) as u8 + 1;
        let rounds = (case / 4 % 16) as u8 + 1;
        let per_set = 1 << (case % 4);
        assert!(rt; tables < 3 || is_walked_or_refused(tables, rounds, per_set));
    }
}

/// The board that a table plays in a round, where a set is one board.
fn board_at(movement: &Movement, table: u8, round: u8) -> Option<u8> {
    for board in 1..=movement.boards() {
        if let Some(cell) = movement.cell(table, board) {
            if movement.round_of(cell) == round {
                return Some(board);
            }
        }
    }
    None
}

/// Whether a table plays in a round just where neither of its pairs is absent, and would play the board of the full movement
/// against its East-West pair. The cell of the table and its board is there where the table plays it, and is found for both
/// of its pairs.
fn sits_out_where_it_must(
    mitchell: Mitchell,
    full: &Movement,
    half: &Movement,
    table: u8,
    round: u8,
) -> bool {
    if table < 1 || mitchell.tables() < table || round < 1 || mitchell.rounds() < round {
        return false;
    }
    let Some(board) = board_at(full, table, round) else {
        return false;
    };
    let there = north_south(table);
    let against = mitchell.ew_at(table, round);
    let plays = half.has_pair(there) && half.has_pair(against);
    mitchell.plays(table, round) == plays
        && is_played(full, table, board, round, against)
        && half.cell(table, board).is_some() == plays
        && half.scheduled(board).contains(table) == plays
        && half.cell_of(there, board).is_some() == plays
        && half.cell_of(against, board).is_some() == plays
        && (!plays || is_played(half, table, board, round, against))
}

/// The same of each table in each round.
fn sits_out(mitchell: Mitchell, full: &Movement, half: &Movement) -> bool {
    for table in 1..=full.tables() {
        for round in 1..=full.rounds() {
            if !sits_out_where_it_must(mitchell, full, half, table, round) {
                return false;
            }
        }
    }
    true
}

/// Whether a movement has a pair on each side for each table, but for one that is absent, and no other.
fn has_its_pairs(movement: &Movement) -> bool {
    for side in [Side::NorthSouth, Side::EastWest] {
        for number in 0u8..18 {
            let pair = Pair { side, number };
            let is_there = number >= 1
                && number <= movement.tables()
                && movement.absent() != Some(pair);
            if movement.has_pair(pair) != is_there {
                return false;
            }
        }
    }
    true
}

/// Whether a table sits out just where it would meet a pair that is absent.
fn one_sits_out(full: &Movement, absent: Pair) -> bool {
    let tables = full.tables();
    let rounds = full.rounds();
    match (
        Mitchell::new(tables, rounds, 1, Some(absent)),
        Movement::with_absent(tables, rounds, 1, Some(absent)),
    ) {
        (Ok(mitchell), Ok(half)) => {
            mitchell.absent() == Some(absent)
                && half.absent() == Some(absent)
                && has_its_pairs(&half)
                && sits_out(mitchell, full, &half)
        }
        _ => false,
    }
}

/// The same of each pair of a section, which is absent in turn.
fn each_sits_out(tables: u8) -> bool {
    let Ok(full) = Movement::new(tables, tables.saturating_sub(1) | 1, 1) else {
        return false;
    };
    for side in [Side::NorthSouth, Side::EastWest] {
        for number in 1..=tables {
            if !one_sits_out(&full, Pair { side, number }) {
                return false;
            }
        }
    }
    full.absent().is_none() && has_its_pairs(&full)
}

/// 3 to 16 tables, and each of their pairs.
#[test]
fn whoever_would_meet_an_absent_pair_sits_out(rt: HostRuntime) {
    for tables in 3u8..17 {
        assert!(rt; each_sits_out(tables));
    }
}

/// Whether a board is scheduled at just these tables.
fn is_scheduled_at(movement: &Movement, board: u8, tables: &[u8]) -> bool {
    let scheduled = movement.scheduled(board);
    for table in 1u8..17 {
        if scheduled.contains(table) != tables.contains(&table) {
            return false;
        }
    }
    true
}

/// Three tables without the third East-West pair.
fn half_table(rounds: u8) -> Result<Movement, MovementError> {
    let absent = Pair {
        side: Side::EastWest,
        number: 3,
    };
    Movement::with_absent(3, rounds, 1, Some(absent))
}

/// Over three rounds each board is played at two of the three tables, and in the first round the third one sits out.
#[test]
fn a_half_table_plays_each_board_at_two_tables(rt: HostRuntime) {
    assert!(rt; matches!(half_table(3), Ok(half) if is_scheduled_at(&half, 1, &[1, 3])));
    assert!(rt; matches!(half_table(3), Ok(half) if is_scheduled_at(&half, 2, &[2, 3])));
    assert!(rt; matches!(half_table(3), Ok(half) if is_scheduled_at(&half, 3, &[1, 2])));
    assert!(rt; matches!(half_table(1), Ok(half) if is_scheduled_at(&half, 3, &[])));
}

/// The most boards are those of 16 tables with 8 boards in a set.
#[test]
fn sixteen_tables_play_up_to_128_boards(rt: HostRuntime) {
    assert!(rt; matches!(Movement::new(16, 1, 8), Ok(movement) if movement.boards() == 128));
    assert!(rt; matches!(Movement::new(16, 1, 9), Err(MovementError::BadSets)));
}

/// Whether the absent pair of three tables has this number's fault.
fn is_fault(number: u8, per_set: u8, fault: MovementError) -> bool {
    let absent = Pair {
        side: Side::NorthSouth,
        number,
    };
    matches!(Movement::with_absent(3, 3, per_set, Some(absent)), Err(found) if found == fault)
}

/// A pair that the section hasn't can't be absent; that is found after all else.
#[test]
fn nobody_is_absent_who_is_no_pair(rt: HostRuntime) {
    assert!(rt; is_fault(4, 1, MovementError::BadPair));
    assert!(rt; is_fault(0, 1, MovementError::BadPair));
    assert!(rt; is_fault(4, 9, MovementError::BadSets));
}
