//! What the solver found, as it is written: the deal, and the numbers in the form in which replies have them.

use cards::{Card, Deal, Play, Rank};
use command_writing::command_value;
use double_dummy::{Budget, play_costs, table};
use movement::Cell;
use scoring::{Contract, Doubling, Level};
use session_commands::Command;
use std::alloc::Global;
use table_terms::{Place, Strain, Suit};

/// Each player has one suit: who has the trumps takes all tricks, and without trumps the player at declarer's left.
const SUITS: &str = "N:AKQJT98765432... .AKQJT98765432.. ..AKQJT98765432. ...AKQJT98765432";

/// In spades, hearts, diamonds, clubs and no trump.
const SOLVED: &str =
    r#"{"board":1,"cmd":"Solved","deal":"N:AKQJT98765432... .AKQJT98765432.. ..AKQJT98765432. ...AKQJT98765432","tricks":{"E":[0,13,0,13,0],"N":[13,0,13,0,0],"S":[13,0,13,0,0],"W":[0,13,0,13,0]}}"#;

/// Nobody can win or lose a trick by another card.
const ANALYSED: &str =
    r#"{"board":2,"cmd":"Analysed","contract":{"by":"N","doubled":2,"level":1,"strain":"N"},"costs":[0,0,0,0],"deal":"N:AKQJT98765432... .AKQJT98765432.. ..AKQJT98765432. ...AKQJT98765432","play":["H2","D2","C2","S2"],"table":1}"#;

/// South has no spade.
const ILLEGAL: &str =
    r#"{"board":2,"cmd":"Analysed","contract":{"by":"N","doubled":2,"level":1,"strain":"N"},"costs":{"not_a_play":2},"deal":"N:AKQJT98765432... .AKQJT98765432.. ..AKQJT98765432. ...AKQJT98765432","play":["H2","S2"],"table":1}"#;

const fn two(suit: Suit) -> Card {
    Card {
        suit,
        rank: Rank::Two,
    }
}

/// The table of whole suits, told of board 1.
fn solved(alloc: Global) -> Option<Command> {
    let deal = SUITS.parse::<Deal>().ok()?;
    let table = table(alloc, deal, &mut Budget::new(1_000_000)).ok()?;
    Some(Command::Solved { board: 1, table })
}

/// What these cards cost in one no trump by North, redoubled, at table 1 on board 2.
fn analysed(alloc: Global, cards: &[Card]) -> Option<Command> {
    let deal = SUITS.parse::<Deal>().ok()?;
    let contract = Contract {
        level: Level::new(1)?,
        strain: Strain::NoTrump,
        declarer: Place::North,
        doubling: Doubling::Redoubled,
    };
    let play = Play::new(cards)?;
    let costs = play_costs(alloc, deal, contract, &play, &mut Budget::new(1_000_000)).ok()?;
    Some(Command::Analysed {
        cell: Cell { table: 1, board: 2 },
        costs,
    })
}

fn has_text(alloc: Global, command: &Command, want: &str) -> bool {
    let Ok(value) = command_value(alloc, command) else {
        return false;
    };
    match value.to_string(alloc) {
        Ok(text) => text.as_str() == want,
        Err(_) => false,
    }
}

/// Whether there is a command, which is written so.
fn is_written(alloc: Global, command: &Option<Command>, want: &str) -> bool {
    match command {
        Some(command) => has_text(alloc, command, want),
        None => false,
    }
}

#[test]
fn what_the_solver_found_stands_with_its_deal_and_its_numbers(rt: HostRuntime) {
    let alloc = rt.alloc();
    assert!(rt; is_written(alloc, &solved(alloc), SOLVED), "solved");
    let trick = [
        two(Suit::Hearts),
        two(Suit::Diamonds),
        two(Suit::Clubs),
        two(Suit::Spades),
    ];
    assert!(rt;
        is_written(alloc, &analysed(alloc, &trick), ANALYSED),
        "analysed"
    );
    let illegal = [two(Suit::Hearts), two(Suit::Spades)];
    assert!(rt;
        is_written(alloc, &analysed(alloc, &illegal), ILLEGAL),
        "illegal"
    );
}
