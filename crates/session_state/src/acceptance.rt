//! When a command is refused.
ghost use Rattle.std.specs.Prelude.{◌≡◌, not, true, IfSome, IfNone};
ghost use Rattle.std.specs.Option.{option_map_or};
ghost use Rattle.disclosure_rules.specs.Seating.{some_that};
ghost use Rattle.session_state.specs.Accounts.{has_account};
ghost use Rattle.session_commands.specs.Command.{subject_cell, subject_board};
ghost use Rattle.rbac.specs.Authorization.{has_permission};
ghost use Rattle.session_state.specs.Refusal.{is_permitted, hindrance_of, refusal_of};
ghost use Rattle.session_state.specs.SessionState.{IsPlaced, IsKeptBoard};

use crate::causes::first_cause;
use crate::schedule::{awaits_round, misses_board, misses_cell};
use crate::state::State;
use session_commands::{Actor, Command, Refusal};
use session_roles::Operation;
use user_names::Name;

/// How many entries a journal has at most.
pub const MOST_ENTRIES: usize = 60000;

/// Why a command is refused over a state to which a journal of so many entries leads, if it is. The spoiler is
/// the first user who sits at the command's cell and was shown something of its board.
pub fn refusal(
    state: &State,
    spoiler: Option<Name>,
    actor: Actor,
    command: &Command,
    entries: usize,
) -> Option<Refusal>
    ensures { result ≡ refusal_of state.now spoiler actor command.now entries }
{
    if !is_permitted(state, actor, command) {
        return Some(Refusal::NotPermitted);
    }
    let hindered = hindrance(state, command);
    if hindered.is_some() {
        return hindered;
    }
    first_cause(&[
        command.spoiled(spoiler),
        (entries >= MOST_ENTRIES).then_some(Refusal::JournalFull),
    ])
}

/// The first cause to refuse a command that leaves the state as it is, if one is met.
#[tactic(auto, unfolding(crate::specs::Refusal::hindrance_of))]
pub fn hindrance(state: &State, command: &Command) -> Option<Refusal>
    ensures cause { result ≡ hindrance_of state.now command.now }
    ensures placed { IfNone result (IfSome (subject_cell command.now) IsPlaced) }
    ensures board { IfNone result (IfSome (subject_board command.now) IsKeptBoard) }
{
    let public = state.public();
    let cell = command.cell();
    if misses_user(state, command.user()) {
        return Some(Refusal::NoSuchUser);
    }
    if misses_cell(&public.movement, cell) {
        return Some(Refusal::NoSuchCell);
    }
    if misses_board(&public.movement, command.board()) {
        return Some(Refusal::NoSuchBoard);
    }
    if !command.is_taken_in(public.phase) {
        return Some(Refusal::WrongPhase);
    }
    if !command.is_solvers() && awaits_round(&public.movement, cell, public.round) {
        return Some(Refusal::RoundNotStarted);
    }
    state.own_cause(command)
}

// Whether who gives a command may: a user who has the permission for its operation, if it has one, or the solver for
// one of its own.
fn is_permitted(state: &State, actor: Actor, command: &Command) -> bool
    ensures { result ≡ is_permitted state.now.roles actor command.now }
{
    match actor {
        Actor::User(name) => is_permitted_user(state, name, command.operation()),
        Actor::Solver => command.is_solvers(),
    }
}

// Whether a user has the permission for an operation, if there is one.
fn is_permitted_user(state: &State, name: Name, operation: Option<Operation>) -> bool
    ensures { result ≡ option_map_or (has_permission state.now.roles name) operation true }
{
    match operation {
        Some(operation) => state.check_access(name, operation),
        None => true,
    }
}

// Whether there is a user without an account.
fn misses_user(state: &State, user: Option<Name>) -> bool
    ensures { result ≡ some_that user (λ name. not (has_account state.now.roles name)) }
{
    match user {
        Some(name) => !state.has_account(name),
        None => false,
    }
}
