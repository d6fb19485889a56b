//! Movements as they are walked through, of each size: after a round pairs and sets go from table to table.

use super::named::of;
use movement::Movement;
use named_movements::{MovementWord, NamedMovement};
use table_terms::{Pair, Side};

/// What lies or sits at places in a row, from the first on.
type Places = [u8; 16];

const IN_ORDER: Places = [1, 2, 3, 4, 5, 6, 7, 8, 9, 10, 11, 12, 13, 14, 15, 16];

/// Each goes to the next place, and the last to the first.
fn move_up(places: &mut Places, many: u8) {
    for i in 1..usize::from(many).min(16) {
        places.swap(0, i);
    }
}

/// Each goes to the place before, and the first to the last.
fn move_down(places: &mut Places, many: u8) {
    for i in 1..usize::from(many).min(16) {
        places.swap(i - 1, i);
    }
}

/// What is at a place, counted from 0.
fn at(places: &Places, place: u8) -> u8 {
    places[usize::from(place) % 16]
}

/// The set on a table, counted from 0, by the sets at the places and, for the upper half of a web, from the last table down.
fn set_on(named: &NamedMovement, sets: &Places, from_last: &Places, table: u8) -> u8 {
    let is_lower = table < named.tables / 2;
    match named.word {
        MovementWord::Mitchell | MovementWord::Howell => at(sets, table),
        // the place between the halves is where a set lies by, and the last table shares with the first
        MovementWord::ShareAndRelay if is_lower => at(sets, table),
        MovementWord::ShareAndRelay if table.wrapping_add(1) == named.tables => at(sets, 0),
        MovementWord::ShareAndRelay => at(sets, table.wrapping_add(1)),
        // where a half has more tables than sets, they are shared
        MovementWord::Web if named.rounds == 0 => 0,
        MovementWord::Web if is_lower => at(sets, table % named.rounds),
        MovementWord::Web => at(
            from_last,
            named.tables.wrapping_sub(table).wrapping_sub(1) % named.rounds,
        ),
    }
}

/// Whether a table plays a set in a round against an East-West pair, or the other way round.
fn is_played(movement: &Movement, round: u8, table: u8, set: u8, pairs: [Pair; 2]) -> bool {
    match movement.cell(table, set) {
        Some(cell) => {
            movement.round_of(cell) == round
                && movement.north_south_at(cell) == pairs[0]
                && movement.east_west_at(cell) == pairs[1]
        }
        None => false,
    }
}

/// The pair that stays at a table, and the one that came to it.
fn pairs_at(table: u8, came: u8, is_switched: bool) -> [Pair; 2] {
    let stays = Pair {
        side: Side::NorthSouth,
        number: table,
    };
    let came = Pair {
        side: Side::EastWest,
        number: came,
    };
    if is_switched {
        [came, stays]
    } else {
        [stays, came]
    }
}

/// Whether the movement is as it is walked through. The East-West pairs move up a table after each round, and in a Mitchell of
/// an even number of tables once more in the middle; sets move down.
fn is_walked(movement: &Movement, named: NamedMovement) -> bool {
    let places = match named.word {
        MovementWord::Web => named.rounds,
        MovementWord::Mitchell | MovementWord::Howell | MovementWord::ShareAndRelay => named.tables,
    };
    let mut pairs = IN_ORDER;
    let mut sets = IN_ORDER;
    let mut from_last = IN_ORDER;
    move_up(&mut from_last, places);
    for before in 0..named.rounds {
        let round = before + 1;
        let is_switched = round > named.rounds.saturating_sub(named.switched);
        for table in 0..named.tables {
            let set = set_on(&named, &sets, &from_last, table);
            let both = pairs_at(table + 1, at(&pairs, table), is_switched);
            if !is_played(movement, round, table + 1, set, both) {
                return false;
            }
        }
        move_up(&mut pairs, named.tables);
        move_down(&mut sets, places);
        move_up(&mut from_last, places);
        let is_middle = named.tables % 2 == 0 && round == named.tables / 2;
        if is_middle && matches!(named.word, MovementWord::Mitchell) {
            move_up(&mut pairs, named.tables);
        }
    }
    true
}

/// How many cells a movement has.
fn cells(movement: &Movement) -> u16 {
    let mut cells: u16 = 0;
    for table in 0..movement.tables() {
        for board in 0..movement.boards() {
            if movement.cell(table + 1, board + 1).is_some() {
                cells = cells.wrapping_add(1);
            }
        }
    }
    cells
}

/// Whether a movement opens and is as walked, each table playing once in each round.
fn is_so(named: NamedMovement) -> bool {
    match named.movement() {
        Ok(movement) => {
            is_walked(&movement, named)
                && cells(&movement) == u16::from(named.tables) * u16::from(named.rounds)
        }
        Err(_) => false,
    }
}

#[test]
fn mitchells_are_walked(rt: HostRuntime) {
    for tables in 3..=16 {
        for rounds in 1..=tables - (1 - tables % 2) {
            for switched in 0..=rounds {
                assert!(rt; is_so(of(MovementWord::Mitchell, tables, rounds, switched)));
            }
        }
    }
}

#[test]
fn shares_and_relays_are_walked(rt: HostRuntime) {
    for half in 2..=8 {
        for rounds in 1..=2 * half {
            assert!(rt; is_so(of(MovementWord::ShareAndRelay, 2 * half, rounds, 0)));
            assert!(rt; is_so(of(MovementWord::ShareAndRelay, 2 * half, rounds, 1)));
        }
    }
}

#[test]
fn webs_are_walked(rt: HostRuntime) {
    for half in 3..=8 {
        for k in 0..half {
            assert!(rt; is_so(of(MovementWord::Web, 2 * half, 2 * k + 1, 0)));
            assert!(rt; is_so(of(MovementWord::Web, 2 * half, 2 * k + 1, 1)));
        }
    }
}
