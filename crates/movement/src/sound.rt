ghost use Rattle.std.specs.Prelude.{◌≡◌, ◌&&◌, nat_le, false, true, IfSome, IfNone, count_by};
ghost use Rattle.std.specs.List.{list_any};
ghost use Rattle.small_sets.specs.First.{IsFirst};
ghost use Rattle.movement.specs.Movement.{same_pair};
ghost use Rattle.movement.specs.Sound.{seats, shares_pair, shares_both, shares_boards, clashes, is_in_range};
ghost use Rattle.movement.specs.Sound.{has_fault, is_ill_placed, fault_number, IsSound, IsFirstMisplaced};
ghost use Rattle.movement.specs.declared.movement_fault.MovementFault.{MovementFault};

use crate::limits::Limits;
use crate::misplaced_row::MisplacedRow;
use crate::movement::Movement;
use crate::movement_fault::MovementFault;
use crate::row::Row;
use table_terms::Pair;

/// The first row that can't stand after those before it, and the first reason why it can't.
pub fn first_misplaced(limits: Limits, rows: &[Row]) -> Option<MisplacedRow>
    ensures first { IfSome result (IsFirstMisplaced limits rows.now) }
    ensures unsound { IfSome result (λ _. ¬ IsSound limits rows.now) }
    ensures sound { IfNone result (IsSound limits rows.now) }
{
    for place in 0..rows.len() {
        if let Some(fault) = first_fault(limits, &rows[..place], &rows[place]) {
            return Some(MisplacedRow { place, fault });
        }
    }
    None
}

/// The first reason why a row can't stand after others.
fn first_fault(limits: Limits, before: &[Row], row: &Row) -> Option<MovementFault>
    ensures first { IfSome result (IsFirst fault_number (λ fault. has_fault limits before.now row.now fault ≡ true)) }
    ensures none { IfNone result ((fault : MovementFault) → has_fault limits before.now row.now fault ≡ false) }
{
    if has_fault(limits, before, row, MovementFault::OutOfRange) {
        Some(MovementFault::OutOfRange)
    } else if has_fault(limits, before, row, MovementFault::TableTwice) {
        Some(MovementFault::TableTwice)
    } else if has_fault(limits, before, row, MovementFault::SetAtTableAgain) {
        Some(MovementFault::SetAtTableAgain)
    } else if has_fault(limits, before, row, MovementFault::PairTwice) {
        Some(MovementFault::PairTwice)
    } else if has_fault(limits, before, row, MovementFault::SetAgain) {
        Some(MovementFault::SetAgain)
    } else if has_fault(limits, before, row, MovementFault::OpponentsAgain) {
        Some(MovementFault::OpponentsAgain)
    } else if has_fault(limits, before, row, MovementFault::SharedByTooMany) {
        Some(MovementFault::SharedByTooMany)
    } else {
        None
    }
}

/// Whether a row can't stand after others for this reason.
#[tactic(auto, unfolding(crate::specs::Sound::has_fault))]
fn has_fault(limits: Limits, before: &[Row], row: &Row, fault: MovementFault) -> bool
    ensures { result ≡ has_fault limits before.now row.now fault }
{
    is_ill_placed(limits, before, row, fault) || clashes_with_one(before, row, fault)
}

/// Whether a row and one of some earlier ones have in common what no two rows may have.
fn clashes_with_one(before: &[Row], row: &Row, fault: MovementFault) -> bool
    ensures { result ≡ list_any (clashes fault row.now) before.now }
{
    before.iter().any(|other| clashes(fault, row, other))
}

/// Whether a row can't stand after so many others, whichever of them it were compared with.
fn is_ill_placed(limits: Limits, before: &[Row], row: &Row, fault: MovementFault) -> bool
    ensures { result ≡ is_ill_placed limits before.now row.now fault }
{
    match fault {
        MovementFault::OutOfRange => !is_in_range(limits, row),
        MovementFault::SharedByTooMany => usize::from(limits.shared_by) <= sharing(before, row),
        MovementFault::TableTwice
        | MovementFault::SetAtTableAgain
        | MovementFault::PairTwice
        | MovementFault::SetAgain
        | MovementFault::OpponentsAgain => false,
    }
}

/// How many of some rows play a row's set in its round.
fn sharing(before: &[Row], row: &Row) -> usize
    ensures { result ≡ count_by (shares_boards row.now) before.now }
{
    before
        .iter()
        .filter(|other| shares_boards(row, other))
        .count()
}

/// Whether a row and an earlier one have in common what no two rows may have.
fn clashes(fault: MovementFault, row: &Row, other: &Row) -> bool
    ensures { result ≡ clashes fault row.now other.now }
{
    match fault {
        MovementFault::TableTwice => row.round == other.round && row.table == other.table,
        MovementFault::SetAtTableAgain => row.table == other.table && row.set == other.set,
        MovementFault::PairTwice => row.round == other.round && shares_pair(row, other),
        MovementFault::SetAgain => row.set == other.set && shares_pair(row, other),
        MovementFault::OpponentsAgain => shares_both(row, other),
        MovementFault::OutOfRange | MovementFault::SharedByTooMany => false,
    }
}

/// Whether two rows play one set in one round.
fn shares_boards(row: &Row, other: &Row) -> bool
    ensures { result ≡ shares_boards row.now other.now }
{
    row.round == other.round && row.set == other.set
}

/// Whether a row seats one of another's pairs.
fn shares_pair(row: &Row, other: &Row) -> bool
    ensures { result ≡ shares_pair row.now other.now }
{
    seats(row, other.north_south) || seats(row, other.east_west)
}

/// Whether a row seats both of another's pairs.
fn shares_both(row: &Row, other: &Row) -> bool
    ensures { result ≡ shares_both row.now other.now }
{
    seats(row, other.north_south) && seats(row, other.east_west)
}

/// Whether a row seats a pair.
pub(crate) fn seats(row: &Row, pair: Pair) -> bool
    ensures { result ≡ seats row.now pair }
{
    same_pair(row.north_south, pair) || same_pair(row.east_west, pair)
}

/// Whether a row's numbers are ones of the movement, and its pairs are two.
fn is_in_range(limits: Limits, row: &Row) -> bool
    ensures { result ≡ is_in_range limits row.now }
{
    is_up_to(row.round, limits.rounds)
        && is_up_to(row.table, limits.tables)
        && is_up_to(row.set, limits.sets)
        && is_up_to(row.north_south.number, Movement::MOST_TABLES)
        && is_up_to(row.east_west.number, Movement::MOST_TABLES)
        && !same_pair(row.north_south, row.east_west)
}

/// Whether a number is from 1 to the most.
fn is_up_to(number: u8, most: u8) -> bool
    ensures { result ≡ (nat_le 1 number && nat_le number most) }
{
    1 <= number && number <= most
}

/// Whether two pairs are one.
#[tactic(auto, using(crate::proofs::ScheduleTests::pair_decides))]
pub(crate) fn same_pair(pair: Pair, other: Pair) -> bool
    ensures { result ≡ same_pair pair other }
{
    pair == other
}
