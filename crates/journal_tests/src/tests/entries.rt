//! Entries of a journal.

use cards::Deal;
use double_dummy::{Budget, table};
use session_commands::{Actor, Command, Entry};
use std::alloc::Global;
use user_names::Name;

// Each player has a suit: the solver needs few visits.
const DEAL: &str = "N:AKQJT98765432... .AKQJT98765432.. ..AKQJT98765432. ...AKQJT98765432";

/// A board is held by a user.
pub(super) fn held(name: &str, board: u8) -> Option<Entry> {
    let name = Name::new(name).ok()?;
    Some(Entry {
        actor: Actor::User(name),
        command: Command::Hold { board },
    })
}

/// A board's table is found.
pub(super) fn solved(alloc: Global, board: u8) -> Option<Entry> {
    let deal = DEAL.parse::<Deal>().ok()?;
    let table = table(alloc, deal, &mut Budget::new(1_000_000)).ok()?;
    Some(Entry {
        actor: Actor::Solver,
        command: Command::Solved { board, table },
    })
}
