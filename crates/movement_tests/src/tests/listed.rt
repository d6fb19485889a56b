//! Movements in full, as a script lists them that knows nothing of this program, or a printed guide card.

use super::named::of;
use movement::Movement;
use named_movements::{MovementWord, NamedMovement};
use std::alloc::{AllocError, Global};

/// A Howell of three tables, a line a round.
const HOWELL_OF_THREE: [&str; 5] = [
    "NS1-EW1:1 NS2-EW2:1 NS3-EW3:1",
    "EW3-NS1:2 EW1-NS2:5 NS3-EW2:3",
    "NS1-EW2:4 EW3-EW1:3 NS3-NS2:2",
    "NS3-NS1:5 EW1-EW2:2 EW3-NS2:4",
    "NS1-NS2:3 EW1-NS3:4 EW2-EW3:5",
];

/// A Howell of four tables, a line a round.
const HOWELL_OF_FOUR: [&str; 7] = [
    "NS1-EW1:1 NS2-EW2:3 NS3-EW3:5 NS4-EW4:2",
    "NS1-NS2:2 NS3-NS4:4 EW2-EW1:6 EW4-EW3:3",
    "NS1-NS3:3 EW2-EW4:5 NS4-NS2:7 EW3-EW1:4",
    "NS1-EW2:4 NS4-EW3:6 EW4-NS3:1 EW1-NS2:5",
    "NS1-NS4:5 EW4-EW1:7 EW3-EW2:2 NS2-NS3:6",
    "NS1-EW4:6 EW3-NS2:1 EW1-NS4:3 NS3-EW2:7",
    "NS1-EW3:7 EW1-NS3:2 NS2-EW4:4 EW2-NS4:1",
];

/// A Howell of five tables, a line a round.
const HOWELL_OF_FIVE: [&str; 9] = [
    "NS1-EW1:1 NS2-EW2:9 NS3-EW3:3 NS4-EW4:8 NS5-EW5:2",
    "NS1-NS2:2 EW2-NS3:1 NS4-EW5:4 NS5-EW3:9 EW4-EW1:3",
    "NS1-EW2:3 NS3-NS4:2 NS5-EW1:5 EW4-EW5:1 EW3-NS2:4",
    "NS1-NS3:4 NS4-NS5:3 EW4-NS2:6 EW3-EW1:2 EW5-EW2:5",
    "NS1-NS4:5 NS5-EW4:4 EW3-EW2:7 EW5-NS2:3 EW1-NS3:6",
    "NS1-NS5:6 EW4-EW3:5 EW5-NS3:8 EW1-EW2:4 NS2-NS4:7",
    "NS1-EW4:7 EW3-EW5:6 EW1-NS4:9 NS2-NS3:5 EW2-NS5:8",
    "NS1-EW3:8 EW5-EW1:7 NS2-NS5:1 EW2-NS4:6 NS3-EW4:9",
    "NS1-EW5:9 EW1-NS2:8 EW2-EW4:2 NS3-NS5:7 NS4-EW3:1",
];

/// A Howell of six tables, a line a round.
const HOWELL_OF_SIX: [&str; 11] = [
    "NS1-EW1:1 NS2-EW2:8 NS3-EW3:11 NS4-EW4:7 NS5-EW5:3 NS6-EW6:9",
    "NS1-NS2:2 EW2-NS3:9 NS4-EW6:1 NS5-NS6:8 EW3-EW1:4 EW5-EW4:10",
    "NS1-EW2:3 NS3-NS4:10 NS5-EW4:2 EW3-EW5:9 EW6-NS2:5 EW1-NS6:11",
    "NS1-NS3:4 NS4-NS5:11 EW3-NS6:3 EW6-EW1:10 EW4-EW2:6 NS2-EW5:1",
    "NS1-NS4:5 NS5-EW3:1 EW6-EW5:4 EW4-NS2:11 NS6-NS3:7 EW2-EW1:2",
    "NS1-NS5:6 EW3-EW6:2 EW4-EW1:5 NS6-EW2:1 EW5-NS4:8 NS3-NS2:3",
    "NS1-EW3:7 EW6-EW4:3 NS6-NS2:6 EW5-NS3:2 EW1-NS5:9 NS4-EW2:4",
    "NS1-EW6:8 EW4-NS6:4 EW5-EW2:7 EW1-NS4:3 NS2-EW3:10 NS5-NS3:5",
    "NS1-EW4:9 NS6-EW5:5 EW1-NS3:8 NS2-NS5:4 EW2-EW6:11 EW3-NS4:6",
    "NS1-NS6:10 EW5-EW1:6 NS2-NS4:9 EW2-EW3:5 NS3-EW4:1 EW6-NS5:7",
    "NS1-EW5:11 EW1-NS2:7 EW2-NS5:10 NS3-EW6:6 NS4-NS6:2 EW4-EW3:8",
];

/// A Howell of seven tables, a line a round.
const HOWELL_OF_SEVEN: [&str; 13] = [
    "NS1-EW1:1 NS2-EW2:7 NS3-EW3:2 NS4-EW4:12 NS5-EW5:9 NS6-EW6:5 NS7-EW7:10",
    "NS1-NS2:2 EW2-NS3:8 NS4-EW6:3 NS5-EW7:13 EW3-EW1:10 EW5-NS7:6 EW4-NS6:11",
    "NS1-EW2:3 NS3-NS4:9 NS5-NS7:4 EW3-NS6:1 EW6-NS2:11 EW1-EW4:7 EW7-EW5:12",
    "NS1-NS3:4 NS4-NS5:10 EW3-EW4:5 EW6-EW5:2 NS7-EW2:12 NS2-EW7:8 NS6-EW1:13",
    "NS1-NS4:5 NS5-EW3:11 EW6-EW7:6 NS7-EW1:3 EW4-NS3:13 EW2-NS6:9 EW5-NS2:1",
    "NS1-NS5:6 EW3-EW6:12 NS7-NS6:7 EW4-NS2:4 EW7-NS4:1 NS3-EW5:10 EW1-EW2:2",
    "NS1-EW3:7 EW6-NS7:13 EW4-EW5:8 EW7-EW2:5 NS6-NS5:2 NS4-EW1:11 NS2-NS3:3",
    "NS1-EW6:8 NS7-EW4:1 EW7-EW1:9 NS6-NS3:6 EW5-EW3:3 NS5-NS2:12 EW2-NS4:4",
    "NS1-NS7:9 EW4-EW7:2 NS6-NS2:10 EW5-NS4:7 EW1-EW6:4 EW3-EW2:13 NS3-NS5:5",
    "NS1-EW4:10 EW7-NS6:3 EW5-EW2:11 EW1-NS5:8 NS2-NS7:5 EW6-NS3:1 NS4-EW3:6",
    "NS1-EW7:11 NS6-EW5:4 EW1-NS3:12 NS2-EW3:9 EW2-EW4:6 NS7-NS4:2 NS5-EW6:7",
    "NS1-NS6:12 EW5-EW1:5 NS2-NS4:13 EW2-EW6:10 NS3-EW7:7 EW4-NS5:3 EW3-NS7:8",
    "NS1-EW5:13 EW1-NS2:6 EW2-NS5:1 NS3-NS7:11 NS4-NS6:8 EW7-EW3:4 EW6-EW4:9",
];

/// A Howell of eight tables, a line a round.
const HOWELL_OF_EIGHT: [&str; 15] = [
    "NS1-EW1:1 NS2-EW2:8 NS3-EW3:13 NS4-EW4:15 NS5-EW5:3 NS6-EW6:9 NS7-EW7:7 NS8-EW8:12",
    "NS1-NS2:2 EW2-EW3:9 NS5-NS4:14 NS3-EW6:1 NS6-EW1:4 EW7-NS8:10 EW5-EW8:8 NS7-EW4:13",
    "NS1-EW2:3 EW3-NS4:10 NS6-NS3:15 NS5-NS8:2 EW7-NS2:5 EW8-NS7:11 EW1-EW4:9 EW5-EW6:14",
    "NS1-EW3:4 NS4-NS3:11 EW7-NS5:1 NS6-NS7:3 EW8-EW2:6 EW4-EW5:12 NS2-EW6:10 EW1-NS8:15",
    "NS1-NS4:5 NS3-NS5:12 EW8-NS6:2 EW7-EW5:4 EW4-EW3:7 EW6-EW1:13 EW2-NS8:11 NS2-NS7:1",
    "NS1-NS3:6 NS5-NS6:13 EW4-EW7:3 EW8-EW1:5 EW6-NS4:8 NS8-NS2:14 EW3-NS7:12 EW2-EW5:2",
    "NS1-NS5:7 NS6-EW7:14 EW6-EW8:4 EW4-NS2:6 NS8-NS3:9 NS7-EW2:15 NS4-EW5:13 EW3-EW1:3",
    "NS1-NS6:8 EW7-EW8:15 NS8-EW4:5 EW6-EW2:7 NS7-NS5:10 EW5-EW3:1 NS3-EW1:14 NS4-NS2:4",
    "NS1-EW7:9 EW8-EW4:1 NS7-EW6:6 NS8-EW3:8 EW5-NS6:11 EW1-NS4:2 NS5-NS2:15 NS3-EW2:5",
    "NS1-EW8:10 EW4-EW6:2 EW5-NS8:7 NS7-NS4:9 EW1-EW7:12 NS2-NS3:3 NS6-EW2:1 NS5-EW3:6",
    "NS1-EW4:11 EW6-NS8:3 EW1-NS7:8 EW5-NS3:10 NS2-EW8:13 EW2-NS5:4 EW7-EW3:2 NS6-NS4:7",
    "NS1-EW6:12 NS8-NS7:4 NS2-EW5:9 EW1-NS5:11 EW2-EW4:14 EW3-NS6:5 EW8-NS4:3 EW7-NS3:8",
    "NS1-NS8:13 NS7-EW5:5 EW2-EW1:10 NS2-NS6:12 EW3-EW6:15 NS4-EW7:6 EW4-NS3:4 EW8-NS5:9",
    "NS1-NS7:14 EW5-EW1:6 EW3-NS2:11 EW2-EW7:13 NS4-NS8:1 NS3-EW8:7 EW6-NS5:5 EW4-NS6:10",
    "NS1-EW5:15 EW1-NS2:7 NS4-EW2:12 EW3-EW8:14 NS3-NS7:2 NS5-EW4:8 NS8-NS6:6 EW6-EW7:11",
];

/// Share and relay, of four tables.
const RELAY_OF_FOUR: [&str; 4] = [
    "NS1-EW1:1 NS2-EW2:2 NS3-EW3:4 NS4-EW4:1",
    "NS1-EW4:2 NS2-EW1:3 NS3-EW2:1 NS4-EW3:2",
    "NS1-EW3:3 NS2-EW4:4 NS3-EW1:2 NS4-EW2:3",
    "NS1-EW2:4 NS2-EW3:1 NS3-EW4:3 NS4-EW1:4",
];

/// Of six tables.
const RELAY_OF_SIX: [&str; 6] = [
    "NS1-EW1:1 NS2-EW2:2 NS3-EW3:3 NS4-EW4:5 NS5-EW5:6 NS6-EW6:1",
    "NS1-EW6:2 NS2-EW1:3 NS3-EW2:4 NS4-EW3:6 NS5-EW4:1 NS6-EW5:2",
    "NS1-EW5:3 NS2-EW6:4 NS3-EW1:5 NS4-EW2:1 NS5-EW3:2 NS6-EW4:3",
    "NS1-EW4:4 NS2-EW5:5 NS3-EW6:6 NS4-EW1:2 NS5-EW2:3 NS6-EW3:4",
    "NS1-EW3:5 NS2-EW4:6 NS3-EW5:1 NS4-EW6:3 NS5-EW1:4 NS6-EW2:5",
    "NS1-EW2:6 NS2-EW3:1 NS3-EW4:2 NS4-EW5:4 NS5-EW6:5 NS6-EW1:6",
];

/// A web of six tables and five rounds.
const WEB_OF_SIX: [&str; 5] = [
    "NS1-EW1:1 NS2-EW2:2 NS3-EW3:3 NS4-EW4:2 NS5-EW5:1 NS6-EW6:5",
    "NS1-EW6:2 NS2-EW1:3 NS3-EW2:4 NS4-EW3:1 NS5-EW4:5 NS6-EW5:4",
    "NS1-EW5:3 NS2-EW6:4 NS3-EW1:5 NS4-EW2:5 NS5-EW3:4 NS6-EW4:3",
    "NS1-EW4:4 NS2-EW5:5 NS3-EW6:1 NS4-EW1:4 NS5-EW2:3 NS6-EW3:2",
    "NS1-EW3:5 NS2-EW4:1 NS3-EW5:2 NS4-EW6:3 NS5-EW1:2 NS6-EW2:1",
];

/// A web of twelve tables and five rounds, in which four tables play a set in a round.
const WEB_OF_TWELVE: [&str; 5] = [
    "NS1-EW1:1 NS2-EW2:2 NS3-EW3:3 NS4-EW4:4 NS5-EW5:5 NS6-EW6:1 NS7-EW7:5 NS8-EW8:4 NS9-EW9:3 NS10-EW10:2 NS11-EW11:1 NS12-EW12:5",
    "NS1-EW12:2 NS2-EW1:3 NS3-EW2:4 NS4-EW3:5 NS5-EW4:1 NS6-EW5:2 NS7-EW6:4 NS8-EW7:3 NS9-EW8:2 NS10-EW9:1 NS11-EW10:5 NS12-EW11:4",
    "NS1-EW11:3 NS2-EW12:4 NS3-EW1:5 NS4-EW2:1 NS5-EW3:2 NS6-EW4:3 NS7-EW5:3 NS8-EW6:2 NS9-EW7:1 NS10-EW8:5 NS11-EW9:4 NS12-EW10:3",
    "NS1-EW10:4 NS2-EW11:5 NS3-EW12:1 NS4-EW1:2 NS5-EW2:3 NS6-EW3:4 NS7-EW4:2 NS8-EW5:1 NS9-EW6:5 NS10-EW7:4 NS11-EW8:3 NS12-EW9:2",
    "NS1-EW9:5 NS2-EW10:1 NS3-EW11:2 NS4-EW12:3 NS5-EW1:4 NS6-EW2:5 NS7-EW3:1 NS8-EW4:5 NS9-EW5:4 NS10-EW6:3 NS11-EW7:2 NS12-EW8:1",
];

/// A Mitchell of four tables and three rounds, the last one switched.
const SWITCHED_MITCHELL_OF_FOUR: [&str; 3] = [
    "NS1-EW1:1 NS2-EW2:2 NS3-EW3:3 NS4-EW4:4",
    "NS1-EW4:2 NS2-EW1:3 NS3-EW2:4 NS4-EW3:1",
    "EW2-NS1:3 EW3-NS2:4 EW4-NS3:1 EW1-NS4:2",
];

/// A Mitchell of five tables and five rounds, the last two switched.
const SWITCHED_MITCHELL_OF_FIVE: [&str; 5] = [
    "NS1-EW1:1 NS2-EW2:2 NS3-EW3:3 NS4-EW4:4 NS5-EW5:5",
    "NS1-EW5:2 NS2-EW1:3 NS3-EW2:4 NS4-EW3:5 NS5-EW4:1",
    "NS1-EW4:3 NS2-EW5:4 NS3-EW1:5 NS4-EW2:1 NS5-EW3:2",
    "EW3-NS1:4 EW4-NS2:5 EW5-NS3:1 EW1-NS4:2 EW2-NS5:3",
    "EW2-NS1:5 EW3-NS2:1 EW4-NS3:2 EW5-NS4:3 EW1-NS5:4",
];

/// What the tables play in a round, as `NS1-EW1:1` at each of them.
fn round_text(alloc: Global, movement: &Movement, round: u8) -> Result<String, AllocError> {
    let mut text = String::new(alloc);
    for table in 0..movement.tables() {
        for board in 0..movement.boards() {
            if let Some(cell) = movement.cell(table + 1, board + 1) {
                if movement.round_of(cell) == round {
                    let blank = if text.is_empty() { "" } else { " " };
                    let north_south = movement.north_south_at(cell);
                    let east_west = movement.east_west_at(cell);
                    text = format!(in alloc;
                        "{text}{blank}{north_south}-{east_west}:{}",
                        cell.board
                    )?;
                }
            }
        }
    }
    Ok(text)
}

/// Whether a round is played as a line says.
fn is_round(alloc: Global, movement: &Movement, round: u8, line: &str) -> bool {
    match round_text(alloc, movement, round) {
        Ok(text) => text.as_str() == line,
        Err(_) => false,
    }
}

/// Whether a movement with one board in a set has just these rounds.
fn is_as_listed(alloc: Global, named: NamedMovement, lines: &[&str]) -> bool {
    let Ok(movement) = named.movement() else {
        return false;
    };
    let mut round: u8 = 0;
    for line in lines {
        round = round.wrapping_add(1);
        if !is_round(alloc, &movement, round, line) {
            return false;
        }
    }
    movement.rounds() == round
}

#[test]
fn howells_are_as_listed(rt: HostRuntime) {
    let alloc = rt.alloc();
    let word = MovementWord::Howell;
    assert!(rt; is_as_listed(alloc, of(word, 3, 5, 0), &HOWELL_OF_THREE));
    assert!(rt; is_as_listed(alloc, of(word, 4, 7, 0), &HOWELL_OF_FOUR));
    assert!(rt; is_as_listed(alloc, of(word, 5, 9, 0), &HOWELL_OF_FIVE));
    assert!(rt; is_as_listed(alloc, of(word, 6, 11, 0), &HOWELL_OF_SIX));
    assert!(rt; is_as_listed(alloc, of(word, 7, 13, 0), &HOWELL_OF_SEVEN));
    assert!(rt; is_as_listed(alloc, of(word, 8, 15, 0), &HOWELL_OF_EIGHT));
}

#[test]
fn others_are_as_listed(rt: HostRuntime) {
    let alloc = rt.alloc();
    assert!(rt;
        is_as_listed(
            alloc,
            of(MovementWord::ShareAndRelay, 4, 4, 0),
            &RELAY_OF_FOUR
        )
    );
    assert!(rt;
        is_as_listed(
            alloc,
            of(MovementWord::ShareAndRelay, 6, 6, 0),
            &RELAY_OF_SIX
        )
    );
    assert!(rt; is_as_listed(alloc, of(MovementWord::Web, 6, 5, 0), &WEB_OF_SIX));
    assert!(rt; is_as_listed(alloc, of(MovementWord::Web, 12, 5, 0), &WEB_OF_TWELVE));
    assert!(rt;
        is_as_listed(
            alloc,
            of(MovementWord::Mitchell, 4, 3, 1),
            &SWITCHED_MITCHELL_OF_FOUR
        )
    );
    assert!(rt;
        is_as_listed(
            alloc,
            of(MovementWord::Mitchell, 5, 5, 2),
            &SWITCHED_MITCHELL_OF_FIVE
        )
    );
}
