//! When no movement is made of a list of rows.

ghost use Rattle.std.specs.Prelude.{◌≡◌, ◌↔◌, false, IfSome, IfNone, IsSomeAnd, IsTrue};
ghost use Rattle.small_sets.specs.First.{IsFirst};
ghost use Rattle.movement.specs.Listed.{AreWithin, is_seated};
ghost use Rattle.movement.specs.Refusal.{RefusesList, list_error_number};
ghost use Rattle.movement.specs.Sound.{IsSound};
ghost use Rattle.movement.specs.declared.list_error.ListError.{ListError};

use crate::limits::Limits;
use crate::list_error::ListError;
use crate::movement::Movement;
use crate::pairs::is_seated;
use crate::row::Row;
use crate::sound::first_misplaced;
use table_terms::Pair;

/// The first cause not to make a movement of a list, if one is met.
pub(crate) fn refusal(
    limits: Limits,
    per_set: u8,
    absent: Option<Pair>,
    rows: &[Row],
) -> Option<ListError>
    ensures some { IfSome result (IsFirst list_error_number (RefusesList limits per_set absent rows.now)) }
    ensures none { IfNone result ((error : ListError) → ¬ RefusesList limits per_set absent rows.now error) }
    ensures sound { IfNone result (IsSound limits rows.now) }
    ensures within { IfNone result (AreWithin limits per_set) }
{
    if limits.tables < Movement::LEAST_TABLES || limits.tables > Movement::MOST_TABLES {
        return Some(ListError::BadTables);
    }
    if limits.rounds < 1 {
        return Some(ListError::BadRounds);
    }
    if per_set < 1
        || per_set > Movement::MOST_PER_SET
        || limits.sets < 1
        || limits.sets > Movement::MOST_SETS
        || limits.sets * per_set > Movement::MOST_BOARDS
    {
        return Some(ListError::BadSets);
    }
    if let Some(misplaced) = first_misplaced(limits, rows) {
        return Some(ListError::BadRow(misplaced));
    }
    if misses_pair(absent, rows) {
        Some(ListError::BadPair)
    } else {
        None
    }
}

/// Whether a pair is absent whom no row seats.
fn misses_pair(absent: Option<Pair>, rows: &[Row]) -> bool
    ensures { IsTrue result ↔ IsSomeAnd absent (λ pair. is_seated rows.now pair ≡ false) }
{
    match absent {
        None => false,
        Some(pair) => !is_seated(rows, pair),
    }
}
