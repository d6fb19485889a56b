//! Session objects that ask for a movement: a Howell of three tables as a list, its faults, other values of the members, and
//! the longest list.

use super::boards::deals;
use super::opened::movement_in;
use movement::Movement;
use session_object::SessionFault;
use std::alloc::{AllocError, Global};
use table_terms::{Pair, Side};

/// A Howell of three tables, five rounds and five sets. In its first round all three tables play set 1.
static HOWELL: [&str; 15] = [
    r#"[1,1,1,"NS1","EW1"]"#,
    r#"[1,2,1,"NS2","EW2"]"#,
    r#"[1,3,1,"NS3","EW3"]"#,
    r#"[2,1,2,"EW3","NS1"]"#,
    r#"[2,2,5,"EW1","NS2"]"#,
    r#"[2,3,3,"NS3","EW2"]"#,
    r#"[3,1,4,"NS1","EW2"]"#,
    r#"[3,2,3,"EW3","EW1"]"#,
    r#"[3,3,2,"NS3","NS2"]"#,
    r#"[4,1,5,"NS3","NS1"]"#,
    r#"[4,2,2,"EW1","EW2"]"#,
    r#"[4,3,4,"EW3","NS2"]"#,
    r#"[5,1,3,"NS1","NS2"]"#,
    r#"[5,2,4,"EW1","NS3"]"#,
    r#"[5,3,5,"EW2","EW3"]"#,
];

/// The members beside it, where nothing else is said.
const BESIDE: &str = r#""per_set":1,"rounds":5,"shared_by":3,"tables":3"#;

/// The number of a row of the Howell, what stands in its place, the members beside the list, and what comes of it.
static LISTS: [(usize, &str, &str, &str); 32] = [
    (0, "", BESIDE, "read"),
    (
        0,
        "",
        r#""per_set":1,"rounds":5,"tables":3"#,
        "SharedByTooMany(2)",
    ),
    (
        0,
        "",
        r#""per_set":1,"rounds":5,"shared_by":2,"tables":3"#,
        "SharedByTooMany(3)",
    ),
    (2, r#"[6,2,1,"NS2","EW2"]"#, BESIDE, "OutOfRange(2)"),
    (2, r#"[1,2,1,"NS2","NS2"]"#, BESIDE, "OutOfRange(2)"),
    (1, r#"[1,4,1,"NS1","EW1"]"#, BESIDE, "OutOfRange(1)"),
    (1, r#"[1,1,0,"NS1","EW1"]"#, BESIDE, "OutOfRange(1)"),
    (1, r#"[1,1,1,"NS17","EW1"]"#, BESIDE, "OutOfRange(1)"),
    (2, r#"[1,1,2,"NS2","EW2"]"#, BESIDE, "TableTwice(2)"),
    (4, r#"[2,1,1,"EW3","NS1"]"#, BESIDE, "SetAtTableAgain(4)"),
    (2, r#"[1,2,2,"NS1","EW2"]"#, BESIDE, "PairTwice(2)"),
    (4, r#"[2,1,2,"EW1","NS1"]"#, BESIDE, "OpponentsAgain(4)"),
    (7, r#"[3,1,3,"NS3","EW1"]"#, BESIDE, "SetAgain(7)"),
    (15, r#"[5,3,32,"EW2","EW3"]"#, BESIDE, "BadSets"),
    (
        0,
        "",
        r#""per_set":9,"rounds":5,"shared_by":2,"tables":3"#,
        "BadSets",
    ),
    (
        0,
        "",
        r#""per_set":1,"rounds":0,"shared_by":3,"tables":3"#,
        "BadRounds",
    ),
    (
        0,
        "",
        r#""per_set":9,"rounds":0,"shared_by":3,"tables":2"#,
        "BadTables",
    ),
    (
        0,
        "",
        r#""absent":"NS4","per_set":1,"rounds":5,"shared_by":3,"tables":3"#,
        "BadPair",
    ),
    (
        0,
        "",
        r#""absent":"NS4","per_set":1,"rounds":5,"shared_by":2,"tables":3"#,
        "SharedByTooMany(3)",
    ),
    (
        0,
        "",
        r#""absent":"EW3","per_set":1,"rounds":5,"shared_by":3,"tables":3"#,
        "read",
    ),
    (
        0,
        "",
        r#""per_set":2,"rounds":5,"shared_by":3,"tables":3"#,
        "MissingBoard(6)",
    ),
    (
        0,
        "",
        r#""per_set":1,"rounds":5,"shared_by":16,"tables":3"#,
        "read",
    ),
    (
        0,
        "",
        r#""per_set":1,"rounds":5,"shared_by":0,"tables":3"#,
        "BadField",
    ),
    (
        0,
        "",
        r#""per_set":1,"rounds":5,"shared_by":17,"tables":3"#,
        "BadField",
    ),
    (
        0,
        "",
        r#""per_set":1,"rounds":5,"shared_by":"3","tables":3"#,
        "BadField",
    ),
    (
        0,
        "",
        r#""per_set":1,"rounds":5,"shared_by":3,"switched":0,"tables":3"#,
        "BadField",
    ),
    (3, r#"[1,3,1,"NS3"]"#, BESIDE, "BadField"),
    (3, r#"[1,3,1,"NS3","EW3",1]"#, BESIDE, "BadField"),
    (3, r#"[1,3,1,"NS3","EW0"]"#, BESIDE, "BadField"),
    (3, r#"[1,3,256,"NS3","EW3"]"#, BESIDE, "BadField"),
    (3, r#"[1,"3",1,"NS3","EW3"]"#, BESIDE, "BadField"),
    (3, r#"{"round":1}"#, BESIDE, "BadField"),
];

/// The members about the movement, where no list of the Howell's is among them, and what comes of them.
static OTHERS: [(&str, &str); 16] = [
    (r#""per_set":1,"rounds":3,"tables":3"#, "read"),
    (
        r#""movement":"mitchell","per_set":1,"rounds":3,"tables":3"#,
        "read",
    ),
    (
        r#""movement":"mitchell","per_set":1,"rounds":3,"switched":0,"tables":3"#,
        "read",
    ),
    (
        r#""movement":"mitchell","per_set":1,"rounds":4,"tables":3"#,
        "BadRounds",
    ),
    (
        r#""absent":"EW4","movement":"mitchell","per_set":1,"rounds":3,"tables":3"#,
        "BadPair",
    ),
    (
        r#""per_set":1,"rounds":3,"switched":0,"tables":3"#,
        "BadField",
    ),
    (
        r#""per_set":1,"rounds":3,"shared_by":1,"tables":3"#,
        "BadField",
    ),
    (
        r#""movement":"mitchell","per_set":1,"rounds":3,"shared_by":1,"tables":3"#,
        "BadField",
    ),
    (
        r#""movement":"mitchell","per_set":1,"rounds":3,"switched":4,"tables":3"#,
        "BadField",
    ),
    (
        r#""movement":"Mitchell","per_set":1,"rounds":3,"tables":3"#,
        "BadField",
    ),
    (
        r#""movement":"swiss","per_set":1,"rounds":3,"tables":3"#,
        "BadField",
    ),
    (
        r#""movement":[],"per_set":1,"rounds":3,"tables":3"#,
        "BadField",
    ),
    (
        r#""movement":null,"per_set":1,"rounds":3,"tables":3"#,
        "BadField",
    ),
    (
        r#""movement":{},"per_set":1,"rounds":3,"tables":3"#,
        "BadField",
    ),
    (
        r#""movement":1,"per_set":1,"rounds":3,"tables":3"#,
        "BadField",
    ),
    (
        r#""movement":[[1,1,1,"NS1"]],"per_set":1,"rounds":3,"tables":3"#,
        "BadField",
    ),
];

/// The word, the tables, the rounds, what else is said, and what comes of it: a session of five boards.
static WORDS: [(&str, u8, u8, &str, &str); 30] = [
    ("mitchell", 3, 3, "", "read"),
    ("mitchell", 3, 3, r#","switched":1"#, "read"),
    ("mitchell", 3, 3, r#","switched":3"#, "read"),
    ("mitchell", 3, 3, r#","switched":4"#, "BadField"),
    ("mitchell", 3, 4, r#","switched":1"#, "BadRounds"),
    ("mitchell", 17, 3, "", "BadTables"),
    ("howell", 3, 5, "", "read"),
    ("howell", 3, 2, "", "read"),
    ("howell", 3, 6, "", "BadRounds"),
    ("howell", 3, 0, "", "BadRounds"),
    ("howell", 2, 3, "", "BadTables"),
    ("howell", 9, 5, "", "BadTables"),
    ("howell", 4, 7, "", "MissingBoard(6)"),
    ("howell", 3, 5, r#","switched":0"#, "BadField"),
    ("howell", 3, 5, r#","shared_by":3"#, "BadField"),
    ("howell", 3, 5, r#","absent":"EW3""#, "read"),
    ("howell", 3, 5, r#","absent":"EW4""#, "BadPair"),
    ("share_and_relay", 4, 4, "", "read"),
    ("share_and_relay", 4, 4, r#","switched":4"#, "read"),
    ("share_and_relay", 4, 4, r#","shared_by":2"#, "BadField"),
    ("share_and_relay", 4, 5, "", "BadRounds"),
    ("share_and_relay", 5, 5, "", "BadTables"),
    ("share_and_relay", 2, 2, "", "BadTables"),
    ("web", 6, 5, "", "read"),
    ("web", 6, 5, r#","switched":2"#, "read"),
    ("web", 6, 4, "", "BadRounds"),
    ("web", 6, 7, "", "BadRounds"),
    ("web", 4, 3, "", "BadTables"),
    ("web", 7, 5, "", "BadTables"),
    ("swiss", 6, 5, "", "BadField"),
];

// The helpers have no clause, so that a test's proof does not carry what its calls say.

/// The object of a session without users that has these members.
fn object_of(alloc: Global, members: &str) -> Result<String, AllocError> {
    let mut text = String::from_str(alloc, r#"{"budget":0,"users":[],"#)?;
    text.push_str(members)?;
    text.push_str("}")?;
    Ok(text)
}

/// The members beside a list, and the Howell, in which another row stands in the place of this number.
fn with_howell(
    alloc: Global,
    members: &str,
    number: usize,
    row: &str,
) -> Result<String, AllocError> {
    let mut text = String::from_str(alloc, members)?;
    text.push_str(r#","movement":["#)?;
    for (place, written) in HOWELL.iter().enumerate() {
        if place > 0 {
            text.push_str(",")?;
        }
        text.push_str(if place + 1 == number { row } else { written })?;
    }
    text.push_str("]")?;
    Ok(text)
}

/// What comes of an object: `read`, or its fault.
fn outcome(alloc: Global, members: &str, boards: u8) -> Result<String, AllocError> {
    let object = object_of(alloc, members)?;
    let deals = deals(alloc, boards)?;
    match movement_in(alloc, object.as_bytes(), Some(deals.as_bytes())) {
        Ok(_) => String::from_str(alloc, "read"),
        Err(fault) => format!(in alloc; "{fault}"),
    }
}

/// Whether this comes of an object, where the text of its members was made.
fn comes_of(alloc: Global, members: Result<String, AllocError>, boards: u8, wanted: &str) -> bool {
    match members {
        Ok(members) => is_outcome(alloc, members.as_str(), boards, wanted),
        Err(_) => false,
    }
}

fn is_outcome(alloc: Global, members: &str, boards: u8, wanted: &str) -> bool {
    match outcome(alloc, members, boards) {
        Ok(told) => told.as_str() == wanted,
        Err(_) => false,
    }
}

fn comes_of_list(alloc: Global, number: usize, row: &str, members: &str, wanted: &str) -> bool {
    comes_of(alloc, with_howell(alloc, members, number, row), 5, wanted)
}

/// The members of a movement that a word names.
fn with_word(
    alloc: Global,
    word: &str,
    tables: u8,
    rounds: u8,
    rest: &str,
) -> Result<String, AllocError> {
    format!(in alloc;
        "\"movement\":\"{word}\",\"per_set\":1,\"rounds\":{rounds},\"tables\":{tables}{rest}"
    )
}

#[test]
fn a_list_is_read_or_its_first_fault_told(rt: HostRuntime) {
    for &(number, row, members, name) in &LISTS {
        assert!(rt;
            comes_of_list(rt.alloc(), number, row, members, name),
            "{number} {row} {members}"
        );
    }
}

#[test]
fn other_members_about_the_movement(rt: HostRuntime) {
    for &(members, name) in &OTHERS {
        assert!(rt; is_outcome(rt.alloc(), members, 5, name), "{members}");
    }
}

#[test]
fn a_word_is_read_or_its_first_fault_told(rt: HostRuntime) {
    for &(word, tables, rounds, rest, name) in &WORDS {
        let members = with_word(rt.alloc(), word, tables, rounds, rest);
        assert!(rt;
            comes_of(rt.alloc(), members, 5, name),
            "{word} {tables} {rounds} {rest}"
        );
    }
}

// ---- who plays what

fn north_south(number: u8) -> Pair {
    Pair {
        side: Side::NorthSouth,
        number,
    }
}

/// Members about the movement, and where the first pair plays the boards 1 to 5.
static PLACES: [(&str, &str); 4] = [
    (
        r#""movement":"mitchell","per_set":1,"rounds":3,"switched":0,"tables":3"#,
        "plain 1.1 1.2 1.3",
    ),
    (
        r#""movement":"mitchell","per_set":1,"rounds":3,"switched":1,"tables":3"#,
        "named 1.1 1.2 1.3",
    ),
    (
        r#""movement":"howell","per_set":1,"rounds":5,"tables":3"#,
        "named 1.1 1.2 1.5 1.3 1.4",
    ),
    (
        r#""movement":"howell","per_set":1,"rounds":2,"tables":3"#,
        "named 1.1 1.2",
    ),
];

/// Where the first pair plays the boards 1 to 5 of a movement, and in which round, as `table.round` each.
fn places_of(alloc: Global, movement: &Movement) -> Result<String, AllocError> {
    let mut text = String::from_str(
        alloc,
        if movement.is_named() {
            "named"
        } else {
            "plain"
        },
    )?;
    for board in 1..=5 {
        if let Some(cell) = movement.cell_of(north_south(1), board) {
            let place = format!(in alloc; " {}.{}", cell.table, movement.round_of(cell))?;
            text.push_str(place.as_str())?;
        }
    }
    Ok(text)
}

/// The same of an object with these members.
fn first_pair_plays(alloc: Global, members: &str) -> Result<String, AllocError> {
    let object = object_of(alloc, members)?;
    let deals = deals(alloc, 5)?;
    match movement_in(alloc, object.as_bytes(), Some(deals.as_bytes())) {
        Ok(movement) => places_of(alloc, &movement),
        Err(_) => String::from_str(alloc, "not read"),
    }
}

/// Whether the first pair plays there, by these members.
fn is_played(alloc: Global, members: &str, places: &str) -> bool {
    match first_pair_plays(alloc, members) {
        Ok(told) => told.as_str() == places,
        Err(_) => false,
    }
}

fn is_played_by_list(alloc: Global, places: &str) -> bool {
    match with_howell(alloc, BESIDE, 0, "") {
        Ok(members) => is_played(alloc, members.as_str(), places),
        Err(_) => false,
    }
}

#[test]
fn the_rows_say_who_plays_what(rt: HostRuntime) {
    assert!(rt; is_played_by_list(rt.alloc(), "named 1.1 1.2 1.5 1.3 1.4"));
    for &(members, places) in &PLACES {
        assert!(rt; is_played(rt.alloc(), members, places), "{members}");
    }
}

// ---- the longest list

/// The pair of a number from 0 to 31.
fn pair_of(number: u8) -> Pair {
    Pair {
        side: if number < 16 {
            Side::NorthSouth
        } else {
            Side::EastWest
        },
        number: number % 16 + 1,
    }
}

/// All against all: 32 pairs in 31 rounds, in each of which all 16 tables play one set. One pair stays at table 1, and the others
/// go around it. Then so many rows more.
fn all_against_all(alloc: Global, more: u8) -> Result<String, AllocError> {
    let mut text = String::from_str(
        alloc,
        r#""per_set":1,"rounds":31,"shared_by":16,"tables":16,"movement":["#,
    )?;
    for round in 0..31_u8 {
        for table in 0..16_u8 {
            let (one, other) = if table == 0 {
                (31, round)
            } else {
                ((round + table) % 31, (round + 31 - table) % 31)
            };
            let row = format!(in alloc;
                "[{},{},{},\"{}\",\"{}\"],",
                round + 1,
                table + 1,
                round + 1,
                pair_of(one),
                pair_of(other)
            )?;
            text.push_str(row.as_str())?;
        }
    }
    for _ in 0..more {
        text.push_str(r#"[31,16,31,"NS1","EW1"],"#)?;
    }
    text.pop();
    text.push_str("]")?;
    Ok(text)
}

#[test]
fn a_list_has_496_rows_at_most(rt: HostRuntime) {
    let alloc = rt.alloc();
    assert!(rt; comes_of(alloc, all_against_all(alloc, 0), 31, "read"));
    assert!(rt; comes_of(alloc, all_against_all(alloc, 1), 31, "BadField"));
}

// ---- under every memory: run alone, with each request refused in turn (`tests/memory/refuse_growths.py`), this passes

/// Whether the Howell is read, or memory was refused.
fn is_read_where_there_is_memory(alloc: Global) -> bool {
    let Ok(members) = with_howell(alloc, BESIDE, 0, "") else {
        return true;
    };
    let (Ok(object), Ok(deals)) = (object_of(alloc, members.as_str()), deals(alloc, 5)) else {
        return true;
    };
    match movement_in(alloc, object.as_bytes(), Some(deals.as_bytes())) {
        Ok(movement) => movement.boards() == 5,
        Err(fault) => matches!(fault, SessionFault::OutOfMemory),
    }
}

#[test]
fn a_list_is_read_under_every_memory(rt: HostRuntime) {
    assert!(rt; is_read_where_there_is_memory(rt.alloc()));
}
