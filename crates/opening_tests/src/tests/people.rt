//! Lists of people, as a club writes them.

use people_list::{Person, read_people};
use std::alloc::Global;

/// Lists that aren't read, and how their faults begin.
static REFUSED: [(&str, &str); 14] = [
    ("", "NoHeader"),
    ("name,pair,place\n", "NoPeople"),
    ("name,club\nAnna,X\n", "UnknownColumn: column 2"),
    ("name,pair,name\nAnna,NS1,A\n", "ColumnTwice: column 3"),
    ("pair,place\nNS1,N\n", "NoNameColumn"),
    (
        "name,pair,place\nAnna,NS1,N\n\n\nBen,NS1\n",
        "line 5: WrongFields",
    ),
    ("name,pair,place\n Anna,NS1,N\n", "line 2: BadShown"),
    ("name,pair,place\nAnna,NS0,N\n", "line 2: BadPair"),
    ("name,pair,place\nAnna,NS1,X\n", "line 2: BadPlace"),
    ("name,pair,place\nAnna,NS1,\n", "line 2: BadSeat"),
    ("name,roles\nAnna,Chief\n", "line 2: BadRole"),
    ("name,roles,number\nAnna,Scorer,12-3\n", "line 2: BadNumber"),
    (
        "name,roles,sign_in\nAnna,Scorer,an na\n",
        "line 2: BadSignIn",
    ),
    ("name,roles\nAnna,Scorer\n\nBen,\n", "line 4: NoPart"),
];

fn is_refused(alloc: Global, people: &str, beginning: &str) -> bool {
    match read_people(alloc, people.as_bytes()) {
        Ok(_) => false,
        Err(fault) => match fault.to_string(alloc) {
            Ok(text) => text.as_str().starts_with(beginning),
            Err(_) => false,
        },
    }
}

#[test]
fn refusals(rt: HostRuntime) {
    for row in &REFUSED {
        assert!(rt; is_refused(rt.alloc(), row.0, row.1));
    }
}

/// Whether a list is read to a person who sits somewhere, with a number.
fn is_read(alloc: Global, people: &str, shown: &str, number: &str) -> bool {
    match read_people(alloc, people.as_bytes()) {
        Ok(read) => match read.as_slice() {
            [person] => person.shown.as_str() == shown
                && person.line == 2
                && is_number(person, number),
            _ => false,
        },
        Err(_) => false,
    }
}

fn is_number(person: &Person, number: &str) -> bool {
    match person.number {
        Some(found) => found.as_str() == number && person.seat.is_some(),
        None => false,
    }
}

#[test]
fn a_person(rt: HostRuntime) {
    let people = "number,place,pair,name\n1003,N,NS2,\"Núñez, Carla\"\n";
    assert!(rt; is_read(rt.alloc(), people, "Núñez, Carla", "1003"));
}
