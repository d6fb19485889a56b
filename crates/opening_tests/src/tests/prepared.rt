//! What is prepared for a small club.

use super::boards::deals;
use people_list::read_people;
use preparing::{Plan, prepare};
use sign_ins::SignInToken;
use std::alloc::{AllocError, Global};

fn plan() -> Plan<'static> {
    Plan {
        tables: 3,
        rounds: 1,
        per_set: 1,
        movement: None,
        switched: None,
        absent: None,
        budget: 1000,
        title: None,
        date: None,
        address: "http://localhost:8000/",
    }
}

/// What is said of people: the list of who signs in by what, or the fault.
fn outcome(alloc: Global, people: &str) -> Result<String, AllocError> {
    let people = match read_people(alloc, people.as_bytes()) {
        Ok(people) => people,
        Err(fault) => return fault.to_string(alloc),
    };
    let mut tokens = Vec::new(alloc);
    for place in 0..people.len() {
        tokens.push(SignInToken::new(alloc, &[(place % 32) as u8; 20])?)?;
    }
    match prepare(
        alloc,
        &plan(),
        people.as_slice(),
        tokens.as_slice(),
        deals(alloc, 3)?.as_bytes(),
    ) {
        Ok(prepared) => Ok(prepared.sign_ins),
        Err(fault) => fault.to_string(alloc),
    }
}

static PEOPLE: [(&str, &str); 6] = [
    (
        "name,pair,place,roles\nDora,,,Director Administrator\nAnna <M> \"x\",NS1,N,\n",
        "name,seat,sign_in,token\n\"Dora\",,dora,0000-0000-0000-0000-0000\n\"Anna <M> \"\"x\"\"\",NS1 N,anna,1111-1111-1111-1111-1111\n",
    ),
    (
        "name,pair,place,roles\nDora,,,Director Administrator\nAnna,NS9,N,\n",
        "line 3: NoSuchPair",
    ),
    (
        "name,pair,place,roles\nAnna,NS1,N,\n\nBen,NS1,N,\nDora,,,Administrator\n",
        "line 4: SeatTaken",
    ),
    ("name,pair,place,roles\nAnna,NS1,N,\n", "LastAdministrator"),
    (
        "name,pair,place,roles,sign_in\nDora,,,Administrator,d\nDan,,,Scorer,d\n",
        "line 3: UserExists",
    ),
    (
        "name,pair,place,roles\nDora,NS1,N,Director\n",
        "line 2: NotContestant",
    ),
];

fn is_said(alloc: Global, people: &str, said: &str) -> bool {
    match outcome(alloc, people) {
        Ok(text) => text.as_str() == said,
        Err(_) => false,
    }
}

#[test]
fn what_is_said_of_people(rt: HostRuntime) {
    for row in &PEOPLE {
        assert!(rt; is_said(rt.alloc(), row.0, row.1));
    }
}
