//! That the texts are those that a client sends and that people are told of, and which texts are no entry's.

use cards::Deal;
use entry_texts::{KeptEntry, TextFault, entry_text, read_entry};
use session_commands::{Actor, Entry};
use std::alloc::Global;

/// Commands as docs/PROTOCOL.md shows them, without spaces and with their members in the order of their names.
static SENT: [&str; 24] = [
    r#"{"board":1,"cmd":"Enter","play":["S2","D2","C2","SA"],"result":{"by":"N","doubled":0,"level":4,"strain":"S","tricks":10},"table":1}"#,
    r#"{"board":1,"cmd":"Confirm","result":{"by":"N","doubled":0,"level":4,"strain":"S","tricks":10},"table":1}"#,
    r#"{"board":2,"cmd":"Confirm","result":"pass","table":2}"#,
    r#"{"board":3,"cmd":"Rule","ew":40,"ns":60,"reason":7,"table":3}"#,
    r#"{"board":3,"cmd":"Hold"}"#,
    r#"{"board":3,"cmd":"Release"}"#,
    r#"{"board":2,"cmd":"Correct","play":[],"result":{"by":"N","doubled":0,"level":4,"strain":"S","tricks":11},"table":2}"#,
    r#"{"board":2,"cmd":"Void","table":2}"#,
    r#"{"cmd":"Unseat","name":"n2"}"#,
    r#"{"cmd":"Seat","name":"n2","pair":"NS2","place":"S"}"#,
    r#"{"cmd":"NextRound"}"#,
    r#"{"cmd":"Close"}"#,
    r#"{"cmd":"Finalise"}"#,
    r#"{"cmd":"AddUser","digest":"ba7816bf8f01cfea414140de5dae2223b00361a396177a9cb410ff61f20015ad","name":"v"}"#,
    r#"{"cmd":"Assign","name":"v","role":"Spectator"}"#,
    r#"{"cmd":"Deassign","name":"v","role":"Spectator"}"#,
    r#"{"cmd":"AddInheritance","junior":"Spectator","senior":"Administrator"}"#,
    r#"{"cmd":"DeleteInheritance","junior":"Spectator","senior":"Administrator"}"#,
    r#"{"cmd":"Assign","name":"d","role":"Contestant"}"#,
    r#"{"cmd":"Embargo"}"#,
    r#"{"cmd":"Lift"}"#,
    r#"{"cmd":"Rename","name":"n2","shown":"Anna Müller"}"#,
    r#"{"cmd":"Rename","name":"n2","shown":""}"#,
    r#"{"cmd":"Assign","name":"s","role":"Commentator"}"#,
];

/// Who gave it and what, where the texts are no entry's.
static OTHERS: [(&str, &str); 7] = [
    ("solver", r#"{"cmd":"Close"}"#),
    ("user d", r#"{"cmd":"Close""#),
    ("user d", r#"{"cmd":"close"}"#),
    ("d", r#"{"cmd":"Close"}"#),
    ("userd", r#"{"cmd":"Close"}"#),
    (
        "user a-name-of-more-than-thirty-two-bytes",
        r#"{"cmd":"Close"}"#,
    ),
    (
        "solver",
        r#"{"board":1,"cmd":"Solved","deal":"N:AKQJT98765432... ..."}"#,
    ),
];

/// Each player has one suit: who has the trumps takes all tricks, and without trumps the player at declarer's left.
const SUITS: &str = "N:AKQJT98765432... .AKQJT98765432.. ..AKQJT98765432. ...AKQJT98765432";

const SOLVED: &str =
    r#"{"board":1,"cmd":"Solved","deal":"N:AKQJT98765432... .AKQJT98765432.. ..AKQJT98765432. ...AKQJT98765432","tricks":{"E":[0,13,0,13,0],"N":[13,0,13,0,0],"S":[13,0,13,0,0],"W":[0,13,0,13,0]}}"#;

const ANALYSED: &str =
    r#"{"board":2,"cmd":"Analysed","contract":{"by":"N","doubled":2,"level":1,"strain":"N"},"costs":[0,0],"deal":"N:AKQJT98765432... .AKQJT98765432.. ..AKQJT98765432. ...AKQJT98765432","play":["H2","D2"],"table":1}"#;

/// Whether an entry is written so.
fn is_written(alloc: Global, entry: &Entry, actor: &str, command: &str) -> bool {
    match entry_text(alloc, entry) {
        Ok(text) => text.actor.as_str() == actor && text.command.as_str() == command,
        Err(_) => false,
    }
}

/// Whether what was read is a user's entry that is written so.
fn is_given(alloc: Global, kept: &KeptEntry, actor: &str, command: &str) -> bool {
    match kept {
        KeptEntry::Given(entry) => is_written(alloc, entry, actor, command),
        _ => false,
    }
}

/// Whether a user's entry is read and written again as it was.
fn comes_back(alloc: Global, actor: &str, command: &str) -> bool {
    match read_entry(alloc, actor, command) {
        Ok(kept) => is_given(alloc, &kept, actor, command),
        Err(_) => false,
    }
}

fn is_unreadable(alloc: Global, actor: &str, command: &str) -> bool {
    match read_entry(alloc, actor, command) {
        Ok(_) => false,
        Err(fault) => fault == TextFault::Unreadable,
    }
}

/// Whether what the solver tells is read, by who gave it and what it is of.
fn tells_of(alloc: Global, actor: &str, command: &str) -> bool {
    match read_entry(alloc, actor, command) {
        Ok(kept) => is_of_suits(alloc, &kept, actor == "solver"),
        Err(_) => false,
    }
}

fn is_of_suits(alloc: Global, kept: &KeptEntry, by_solver: bool) -> bool {
    match kept {
        KeptEntry::Solved { actor, board, deal } => {
            *board == 1 && are_suits(alloc, deal) && is_solver(actor) == by_solver
        }
        KeptEntry::Analysed {
            actor,
            cell,
            deal,
            ..
        } => {
            cell.table == 1
                && cell.board == 2
                && are_suits(alloc, deal)
                && is_solver(actor) == by_solver
        }
        KeptEntry::Given(_) => false,
    }
}

fn is_solver(actor: &Actor) -> bool {
    match actor {
        Actor::User(_) => false,
        Actor::Solver => true,
    }
}

fn are_suits(alloc: Global, deal: &Deal) -> bool {
    match deal.to_string(alloc) {
        Ok(text) => text.as_str() == SUITS,
        Err(_) => false,
    }
}

#[test]
fn commands_are_written_as_clients_send_them(rt: HostRuntime) {
    for command in &SENT {
        assert!(rt; comes_back(rt.alloc(), "user d", command), "{command}");
    }
}

#[test]
fn what_the_solver_told_is_read_by_what_it_is_of(rt: HostRuntime) {
    for command in [SOLVED, ANALYSED] {
        for actor in ["solver", "user d"] {
            assert!(rt; tells_of(rt.alloc(), actor, command), "{actor} {command}");
        }
    }
}

#[test]
fn other_texts_are_no_entrys(rt: HostRuntime) {
    for (actor, command) in &OTHERS {
        assert!(rt;
            is_unreadable(rt.alloc(), actor, command),
            "{actor} {command}"
        );
    }
}
