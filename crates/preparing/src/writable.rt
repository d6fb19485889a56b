//! Whether an object can say what is planned.

ghost use Rattle.std.specs.Prelude.{◌≡◌, ◌<◌, true, None, All, IfSome};
ghost use Rattle.session_object.specs.AskedMovement.{StandsBeside};
ghost use Rattle.session_text.specs.Writable.{IsNumbered};
ghost use Rattle.preparing.specs.Guests.{AreSmall, CanBeSaid, IsSeated};
ghost use Rattle.preparing.specs.Planned.{movement_planned};

use crate::guest::Guest;
use crate::plan::Plan;
use named_movements::MovementWord;
use table_terms::Pair;

// The most visits of a solver's call that an object can say.
const MOST_VISITS: u64 = 1_000_000_000_000_000_000;

/// Whether an object can say the numbers of a plan, and those of the pairs of its guests.
pub(crate) fn can_be_said(plan: &Plan<'_>, guests: &[Guest<'_>]) -> bool
    ensures { result ≡ true → CanBeSaid plan.now guests.now }
{
    may_be_absent(plan.absent)
        && plan.budget <= MOST_VISITS
        && may_be_switched(plan)
        && are_seated(guests)
}

/// What a plan's numbers are by their types.
pub(crate) fn are_small(plan: &Plan<'_>)
    ensures { AreSmall plan.now }
{
    is_small(plan.per_set);
    is_small(plan.rounds);
    is_small(plan.tables);
    if let Some(switched) = plan.switched {
        is_small(switched);
    }
}

fn is_small(number: u8)
    ensures { number < 256 }
{}

fn may_be_absent(absent: Option<Pair>) -> bool
    ensures { result ≡ true → IfSome absent IsNumbered }
{
    match absent {
        Some(pair) => is_numbered(pair),
        None => true,
    }
}

fn is_numbered(pair: Pair) -> bool
    ensures { result ≡ true → IsNumbered pair }
{
    pair.number >= 1
}

// Rounds in which the pairs sit the other way round stand beside a movement that has some, and are no more than its rounds.
fn may_be_switched(plan: &Plan<'_>) -> bool
    ensures { result ≡ true → StandsBeside (movement_planned plan.now.movement) plan.now.rounds None plan.now.switched }
{
    let Some(switched) = plan.switched else {
        return true;
    };
    match plan.movement {
        None | Some(MovementWord::Howell) => false,
        Some(MovementWord::Mitchell | MovementWord::ShareAndRelay | MovementWord::Web) => {
            switched <= plan.rounds
        }
    }
}

fn are_seated(guests: &[Guest<'_>]) -> bool
    ensures { result ≡ true → All IsSeated guests.now }
{
    for guest in guests {
        if !is_seated(guest) {
            return false;
        }
    }
    true
}

fn is_seated(guest: &Guest<'_>) -> bool
    ensures { result ≡ true → IsSeated guest.now }
{
    match guest.person.seat {
        Some(seat) => is_numbered(seat.pair),
        None => true,
    }
}
