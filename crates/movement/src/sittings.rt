//! Who plays each set at each table, as a movement keeps it.

ghost use Rattle.std.specs.Prelude.{◌≡◌, ◌↔◌, ◌+◌, ◌/◌, ◌%◌, ◌<◌, ◌≤◌, ◌||◌, Any, Contains, filter, IfOk, Some, length, slice_set};
ghost use Rattle.mitchell.specs.Mitchell.{IsMitchell, mitchell_rows};
ghost use Rattle.mitchell.specs.MitchellRow.{IsAtTable};
ghost use Rattle.movement.specs.Kept.{places, place_of, row_of_sitting, sitting_of, kept_rows};
ghost use Rattle.movement.specs.Listed.{are_there};
ghost use Rattle.movement.specs.Mitchell.{rows_of_mitchell};
ghost use Rattle.movement.specs.Movement.{same_pair, most_tables, most_sets};
ghost use Rattle.movement.specs.declared.row.Row.{Row};
ghost use Rattle.movement.specs.Sound.{IsSound};

use crate::limits::Limits;
use crate::movement::Movement;
use crate::pairs::are_there;
use crate::row::Row;
use crate::sitting::Sitting;
use crate::sound::same_pair;
use mitchell::Mitchell;
use std::alloc::{AllocError, Global};
use table_terms::{Pair, Side};

/// How many places there are: a table at each set.
pub(crate) const PLACES: usize = 496;

/// Who plays each set at each table, by the rows of a movement whose pairs are there.
pub(crate) fn sittings_of(
    limits: Limits,
    absent: Option<Pair>,
    rows: &[Row],
) -> [Option<Sitting>; PLACES]
    requires sound { IsSound limits rows.now }
    requires tables { limits.tables ≤ most_tables }
    requires sets { limits.sets ≤ most_sets }
    ensures places { length result ≡ places }
    ensures rows { (row : Row) → Contains (kept_rows result) row ↔ Contains (filter (are_there absent) rows.now) row }
{
    let mut sittings = [None; PLACES];
    for row in rows {
        if are_there(absent, row) {
            put(&mut sittings, row);
        }
    }
    sittings
}

/// Who plays each set at each table in a section's Mitchell movement.
pub(crate) fn mitchell_sittings(section: Mitchell) -> [Option<Sitting>; PLACES]
    ensures places { length result ≡ places }
    ensures rows { (row : Row) → Contains (kept_rows result) row ↔ Contains (rows_of_mitchell section) row }
    ensures section { IsMitchell section }
{
    let mut sittings = [None; PLACES];
    let tables = section.tables();
    let rounds = section.rounds();
    for table in 0..tables {
        for round in 0..rounds {
            if section.plays(table + 1, round + 1) {
                put(&mut sittings, &mitchell_row(section, table + 1, round + 1));
            }
        }
    }
    sittings
}

/// All rows that are kept, in the order of their places.
pub(crate) fn rows_of(
    alloc: Global,
    sittings: &[Option<Sitting>; PLACES],
) -> Result<Vec<Row>, AllocError>
    ensures { IfOk result (λ listed. listed.items ≡ kept_rows sittings.now) }
{
    let mut listed = Vec::new(alloc);
    for place in 0..PLACES {
        if let Some(sitting) = sittings[place] {
            listed.push(row_of_sitting(place, sitting))?;
        }
    }
    Ok(listed)
}

/// The row that is kept at a place.
fn row_of_sitting(place: usize, sitting: Sitting) -> Row
    requires { place < places }
    ensures { result ≡ row_of_sitting place sitting }
{
    let tables = usize::from(Movement::MOST_TABLES);
    Row {
        round: sitting.round,
        table: (place % tables) as u8 + 1,
        set: (place / tables) as u8 + 1,
        north_south: sitting.north_south,
        east_west: sitting.east_west,
    }
}

/// Whether a pair is one of those who sit there.
pub(crate) fn is_one_of(pair: Pair, sitting: &Sitting) -> bool
    ensures { result ≡ (same_pair sitting.now.north_south pair || same_pair sitting.now.east_west pair) }
{
    same_pair(sitting.north_south, pair) || same_pair(sitting.east_west, pair)
}

/// Puts who sits in a row at its place.
fn put(sittings: &mut [Option<Sitting>; PLACES], row: &Row)
    requires from_set { 1 ≤ row.now.set }
    requires to_set { row.now.set ≤ most_sets }
    requires from_table { 1 ≤ row.now.table }
    requires to_table { row.now.table ≤ most_tables }
    ensures { sittings.new ≡ slice_set sittings.old (place_of row.now.set row.now.table) (Some (sitting_of row.now)) }
{
    let place = (usize::from(row.set) - 1) * usize::from(Movement::MOST_TABLES)
        + (usize::from(row.table) - 1);
    sittings[place] = Some(Sitting {
        round: row.round,
        north_south: row.north_south,
        east_west: row.east_west,
    });
}

/// What a table of a section plays in a round of its Mitchell movement.
fn mitchell_row(section: Mitchell, table: u8, round: u8) -> Row
    requires from_table { 1 ≤ table }
    requires to_table { table ≤ section.tables }
    requires from_round { 1 ≤ round }
    requires to_round { round ≤ section.rounds }
    requires plays { Any (λ row. IsAtTable row table round) (mitchell_rows section) }
    ensures row { Contains (rows_of_mitchell section) result }
    ensures table { result.table ≡ table }
    ensures round { result.round ≡ round }
    ensures from_set { 1 ≤ result.set }
    ensures to_set { result.set ≤ most_tables }
{
    Row {
        round,
        table,
        set: section.set_at(table, round),
        north_south: Pair {
            side: Side::NorthSouth,
            number: table,
        },
        east_west: section.ew_at(table, round),
    }
}
