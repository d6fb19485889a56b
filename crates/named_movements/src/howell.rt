//! The Howells: which pairs follow one another, with which sets the tables begin, and who plays what. Rounds, tables and
//! sets are counted from 0 here.

ghost use Rattle.std.specs.Prelude.{◌≡◌, ◌+◌, ◌*◌, ◌-◌, ◌<◌, ◌≤◌, nat_eq};
ghost use Rattle.std.specs.List.{position_or_len};
ghost use Rattle.named_movements.specs.Howell.{pair_of_number, followers, first_sets, seated_after, howell_sets};
ghost use Rattle.named_movements.specs.Howell.{cyclic_row, row_of_three, howell_row};

use movement::Row;
use table_terms::{Pair, Side};

/// Who sits North-South with three tables, by round and then by table; who sits East-West there; and the set.
static NORTH_SOUTH_OF_THREE: [u8; 15] = [1, 2, 3, 6, 4, 3, 1, 6, 3, 3, 4, 6, 1, 4, 5];

static EAST_WEST_OF_THREE: [u8; 15] = [4, 5, 6, 1, 2, 5, 5, 4, 2, 1, 5, 2, 2, 3, 6];

static SETS_OF_THREE: [u8; 15] = [1, 1, 1, 2, 5, 3, 4, 3, 2, 5, 2, 4, 3, 4, 5];

/// What a table plays in a round.
pub(crate) fn howell_row(tables: u8, round: u8, table: u8) -> Row
    requires from { 3 ≤ tables }
    requires to { tables ≤ 8 }
    requires round { round < howell_sets tables }
    requires table { table < tables }
    ensures { result ≡ howell_row tables round table }
{
    if tables == 3 {
        row_of_three(round, table)
    } else {
        cyclic_row(tables, round, table)
    }
}

/// The same with three tables.
fn row_of_three(round: u8, table: u8) -> Row
    requires round { round < 5 }
    requires table { table < 3 }
    ensures { result ≡ row_of_three round table }
{
    let place = usize::from(round * 3 + table);
    Row {
        round: round + 1,
        table: table + 1,
        set: SETS_OF_THREE[place],
        north_south: pair_of_number(3, NORTH_SOUTH_OF_THREE[place]),
        east_west: pair_of_number(3, EAST_WEST_OF_THREE[place]),
    }
}

/// The same with more.
fn cyclic_row(tables: u8, round: u8, table: u8) -> Row
    requires from { 4 ≤ tables }
    requires to { tables ≤ 8 }
    requires round { round < howell_sets tables }
    requires table { table < tables }
    ensures { result ≡ cyclic_row tables round table }
{
    let sets = 2 * tables - 1;
    let first = first_sets(tables)[usize::from(table)];
    let set = (u16::from(first) + u16::from(round)) % u16::from(sets);
    Row {
        round: round + 1,
        table: table + 1,
        set: set as u8 + 1,
        north_south: pair_of_number(tables, seated_after(tables, round, table + 1)),
        east_west: pair_of_number(tables, seated_after(tables, round, tables + table + 1)),
    }
}

/// The pair that a number says.
fn pair_of_number(tables: u8, number: u8) -> Pair
    ensures { result ≡ pair_of_number tables number }
{
    if number <= tables {
        Pair {
            side: Side::NorthSouth,
            number,
        }
    } else {
        Pair {
            side: Side::EastWest,
            number: number - tables,
        }
    }
}

/// The pair that sits after so many rounds where another one began.
fn seated_after(tables: u8, round: u8, first: u8) -> u8
    requires from { 4 ≤ tables }
    requires to { tables ≤ 8 }
    ensures { result ≡ seated_after tables round first }
{
    if first == 1 {
        return 1;
    }
    let followers = followers(tables);
    let place = place_among(followers, first);
    followers[(place + usize::from(round)) % followers.len()]
}

/// The place of a pair among others, or how many they are.
fn place_among(pairs: &[u8], pair: u8) -> usize
    ensures { result ≡ position_or_len (nat_eq pair) pairs.now }
{
    for (place, other) in pairs.iter().enumerate() {
        if pair == *other {
            return place;
        }
    }
    pairs.len()
}

/// The pairs that move, each before the one that follows it.
fn followers(tables: u8) -> &'static [u8]
    requires from { 4 ≤ tables }
    requires to { tables ≤ 8 }
    ensures { result.now ≡ followers tables }
{
    match tables {
        4 => &[5, 2, 3, 6, 4, 8, 7],
        5 => &[6, 2, 7, 3, 4, 5, 9, 8, 10],
        6 => &[7, 2, 8, 3, 4, 5, 9, 12, 10, 6, 11],
        7 => &[8, 2, 9, 3, 4, 5, 10, 13, 7, 11, 14, 6, 12],
        _ => &[9, 2, 10, 11, 4, 3, 5, 6, 15, 16, 12, 14, 8, 7, 13],
    }
}

/// The sets with which the tables begin.
fn first_sets(tables: u8) -> &'static [u8]
    requires from { 4 ≤ tables }
    requires to { tables ≤ 8 }
    ensures { result.now ≡ first_sets tables }
{
    match tables {
        4 => &[0, 2, 4, 1],
        5 => &[0, 8, 2, 7, 1],
        6 => &[0, 7, 10, 6, 2, 8],
        7 => &[0, 6, 1, 11, 8, 4, 9],
        _ => &[0, 7, 12, 14, 2, 8, 6, 11],
    }
}
