//! Who plays what in each movement that a word names. Rounds, tables, sets and pairs are counted from 0 here.

ghost use Rattle.std.specs.Prelude.{◌≡◌, ◌<◌, ◌≤◌, true};
ghost use Rattle.named_movements.specs.Words.{can_have_tables, can_have_rounds, visit, table_up, relayed_set, web_set};
ghost use Rattle.named_movements.specs.Words.{relay_row, web_row, row_of_word};
ghost use Rattle.mitchell.specs.Mitchell.{most_tables, most_rounds, row_of};
ghost use Rattle.movement.specs.Mitchell.{row_of_mitchell};

use crate::howell::howell_row;
use crate::movement_word::MovementWord;
use movement::Row;
use table_terms::{Pair, Side};

/// One of the rows of a round: what an East-West pair plays, and in a Howell what a table plays.
pub(crate) fn row_of_word(word: MovementWord, tables: u8, rounds: u8, round: u8, k: u8) -> Row
    requires tables { can_have_tables word tables ≡ true }
    requires rounds { can_have_rounds word tables rounds ≡ true }
    requires round { round < rounds }
    requires below { k < tables }
    ensures { result ≡ row_of_word word tables rounds round k }
{
    match word {
        MovementWord::Mitchell => mitchell_row(tables, round, k),
        MovementWord::Howell => howell_row(tables, round, k),
        MovementWord::ShareAndRelay => relay_row(tables, round, k),
        MovementWord::Web => web_row(tables, rounds, round, k),
    }
}

/// What an East-West pair plays in a Mitchell: at an even number of tables the pairs skip one in the middle.
fn mitchell_row(tables: u8, round: u8, east_west: u8) -> Row
    requires tables { tables ≤ most_tables }
    requires round { round < tables }
    requires pair { east_west < tables }
    ensures { result ≡ row_of_mitchell (row_of tables round east_west) }
{
    let has_skipped = tables % 2 == 0 && round >= tables / 2;
    let skipped = if has_skipped { 1 } else { 0 };
    let table = (east_west + round + skipped) % tables;
    visit(round, table, (table + round) % tables, east_west)
}

/// What an East-West pair plays in a share and relay.
fn relay_row(tables: u8, round: u8, east_west: u8) -> Row
    requires tables { tables ≤ most_tables }
    requires round { round < tables }
    requires pair { east_west < tables }
    ensures { result ≡ relay_row tables round east_west }
{
    let table = (east_west + round) % tables;
    let relayed = if 2 * table >= tables { 1 } else { 0 };
    visit(round, table, (table + round + relayed) % tables, east_west)
}

/// What an East-West pair plays in a web.
fn web_row(tables: u8, rounds: u8, round: u8, east_west: u8) -> Row
    requires tables { tables ≤ most_tables }
    requires rounds { rounds < tables }
    requires round { round < rounds }
    requires pair { east_west < tables }
    ensures { result ≡ web_row tables rounds round east_west }
{
    let table = (east_west + round) % tables;
    let set = if 2 * table < tables {
        (table + round) % rounds
    } else {
        ((tables - 1 - table) + (rounds - 1 - round)) % rounds
    };
    visit(round, table, set, east_west)
}

/// The row of an East-West pair at a table whose North-South pair stays there.
fn visit(round: u8, table: u8, set: u8, east_west: u8) -> Row
    requires round { round < 255 }
    requires table { table < 255 }
    requires set { set < 255 }
    requires pair { east_west < 255 }
    ensures { result ≡ visit round table set east_west }
{
    Row {
        round: round + 1,
        table: table + 1,
        set: set + 1,
        north_south: Pair {
            side: Side::NorthSouth,
            number: table + 1,
        },
        east_west: Pair {
            side: Side::EastWest,
            number: east_west + 1,
        },
    }
}
