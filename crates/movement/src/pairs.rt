//! The pairs of a movement, by the side of their names.

ghost use Rattle.std.specs.Prelude.{◌≡◌, ◌<◌, ◌≤◌, nat_le, not, ◌&&◌};
ghost use Rattle.movement.specs.Listed.{are_there, is_seated, plays_in, pairs_that};
ghost use Rattle.movement.specs.Mitchell.{is_pair_of_mitchell};
ghost use Rattle.movement.specs.Movement.{is_absent};

use crate::movement::Movement;
use crate::row::Row;
use crate::sound::{same_pair, seats};
use mitchell::Mitchell;
use small_sets::NumberSet;
use table_terms::{Pair, Side};

/// The numbers of a side's pairs that are there and that some row seats.
pub(crate) fn pairs_of_rows(
    absent: Option<Pair>,
    rows: &[Row],
    side: Side,
) -> NumberSet<{ Movement::MOST_TABLES }>
    ensures { result ≡ pairs_that (plays_in absent rows.now) side }
{
    let mut numbers = NumberSet::new();
    for below in 0..Movement::MOST_TABLES {
        let pair = Pair {
            side,
            number: below + 1,
        };
        if plays_in(absent, rows, pair) {
            numbers.insert(below + 1);
        }
    }
    numbers
}

/// The numbers of a side's pairs that a section has.
pub(crate) fn pairs_of_mitchell(
    section: Mitchell,
    side: Side,
) -> NumberSet<{ Movement::MOST_TABLES }>
    ensures { result ≡ pairs_that (is_pair_of_mitchell section) side }
{
    let mut numbers = NumberSet::new();
    for below in 0..Movement::MOST_TABLES {
        let pair = Pair {
            side,
            number: below + 1,
        };
        if is_pair_of_mitchell(section, pair) {
            numbers.insert(below + 1);
        }
    }
    numbers
}

/// Whether a pair is there, and some row seats it.
fn plays_in(absent: Option<Pair>, rows: &[Row], pair: Pair) -> bool
    ensures { result ≡ plays_in absent rows.now pair }
{
    !is_absent(absent, pair) && is_seated(rows, pair)
}

/// Whether some row seats a pair.
pub(crate) fn is_seated(rows: &[Row], pair: Pair) -> bool
    ensures { result ≡ is_seated rows.now pair }
{
    rows.iter().any(|row| seats(row, pair))
}

/// Whether a section has a pair of a number from 1 on.
fn is_pair_of_mitchell(section: Mitchell, pair: Pair) -> bool
    ensures { result ≡ is_pair_of_mitchell section pair }
{
    pair.number <= section.tables() && !section.is_absent(pair)
}

/// Whether both pairs of a row are there.
pub(crate) fn are_there(absent: Option<Pair>, row: &Row) -> bool
    ensures { result ≡ are_there absent row.now }
{
    !is_absent(absent, row.north_south) && !is_absent(absent, row.east_west)
}

/// Whether a pair is the one that isn't there.
fn is_absent(absent: Option<Pair>, pair: Pair) -> bool
    ensures { result ≡ is_absent absent pair }
{
    match absent {
        None => false,
        Some(absent) => same_pair(absent, pair),
    }
}
