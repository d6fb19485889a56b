//! Users and their roles, as a new set of roles takes and refuses them.

use rbac::Roles;
use session_roles::{Edition, Role};
use std::alloc::Global;
use std::fmt::Debug;

/// What is asked of the roles.
enum Asked {
    /// To add a user.
    Adds(&'static str),
    /// To assign a role to a user, and to take it away.
    Assigns(&'static str, Role),
    Deassigns(&'static str, Role),
    /// To have a senior role inherit from a junior one, and no more.
    Inherits(Role, Role),
    Disinherits(Role, Role),
}

/// What is asked, one after another, and the answer: `ok`, or the refusal. A director reaches a spectator's role and a
/// scorer's. Who loses a role that was never assigned keeps the others: the scorer still can't be a contestant. The first
/// edition knows no commentator.
static FIRST: [(Asked, &str); 27] = [
    (Asked::Adds("d"), "ok"),
    (Asked::Adds("k"), "ok"),
    (Asked::Adds("a b"), "BadName"),
    (Asked::Adds("d"), "UserExists"),
    (Asked::Assigns("d", Role::Director), "ok"),
    (Asked::Assigns("k", Role::Scorer), "ok"),
    (Asked::Assigns("zz", Role::Member), "NoSuchUser"),
    (Asked::Assigns("d", Role::Director), "AlreadyAssigned"),
    (Asked::Assigns("d", Role::Contestant), "Separation(S1)"),
    (Asked::Assigns("zz", Role::Commentator), "NoSuchUser"),
    (Asked::Assigns("d", Role::Commentator), "NoSuchRole"),
    (Asked::Deassigns("d", Role::Commentator), "NoSuchRole"),
    (
        Asked::Inherits(Role::Commentator, Role::Spectator),
        "NoSuchRole",
    ),
    (
        Asked::Disinherits(Role::Commentator, Role::Spectator),
        "NoSuchRole",
    ),
    (Asked::Deassigns("zz", Role::Member), "NoSuchUser"),
    (Asked::Deassigns("k", Role::Director), "NotAssigned"),
    (Asked::Assigns("k", Role::Contestant), "Separation(S2)"),
    (Asked::Inherits(Role::Member, Role::Director), "Cycle"),
    (
        Asked::Inherits(Role::Director, Role::Scorer),
        "AlreadyThere",
    ),
    (Asked::Inherits(Role::Director, Role::Member), "ok"),
    (
        Asked::Inherits(Role::Spectator, Role::Contestant),
        "Separation(S1)",
    ),
    (
        Asked::Disinherits(Role::Administrator, Role::Scorer),
        "NotThere",
    ),
    // Once a spectator is also a scorer, none can be a contestant.
    (Asked::Inherits(Role::Spectator, Role::Scorer), "ok"),
    (Asked::Adds("s"), "ok"),
    (Asked::Assigns("s", Role::Spectator), "ok"),
    (Asked::Assigns("s", Role::Contestant), "Separation(S2)"),
    (Asked::Disinherits(Role::Spectator, Role::Scorer), "ok"),
];

/// The same in the second edition: a commentator is a spectator, and no contestant.
static SECOND: [(Asked, &str); 10] = [
    (Asked::Adds("c"), "ok"),
    (Asked::Assigns("c", Role::Commentator), "ok"),
    (Asked::Assigns("c", Role::Contestant), "Separation(S4)"),
    (
        Asked::Inherits(Role::Spectator, Role::Contestant),
        "Separation(S4)",
    ),
    (
        Asked::Inherits(Role::Commentator, Role::Spectator),
        "AlreadyThere",
    ),
    (Asked::Inherits(Role::Spectator, Role::Commentator), "Cycle"),
    (Asked::Disinherits(Role::Commentator, Role::Spectator), "ok"),
    (Asked::Deassigns("c", Role::Commentator), "ok"),
    (Asked::Assigns("c", Role::Contestant), "ok"),
    (Asked::Assigns("c", Role::Commentator), "Separation(S4)"),
];

/// Whether an answer is told so.
fn is_told<E: Debug + Drop>(alloc: Global, answer: Result<(), E>, told: &str) -> bool {
    match answer {
        Ok(()) => told == "ok",
        Err(error) => match format!(in alloc; "{error:?}") {
            Ok(text) => text.as_str() == told,
            Err(_) => false,
        },
    }
}

fn is_answered(alloc: Global, roles: &mut Roles, (asked, told): &(Asked, &str)) -> bool {
    match *asked {
        Asked::Adds(name) => is_told(alloc, roles.add_user(name), told),
        Asked::Assigns(name, role) => is_told(alloc, roles.assign(name, role), told),
        Asked::Deassigns(name, role) => is_told(alloc, roles.deassign(name, role), told),
        Asked::Inherits(senior, junior) => {
            is_told(alloc, roles.add_inheritance(senior, junior), told)
        }
        Asked::Disinherits(senior, junior) => {
            is_told(alloc, roles.delete_inheritance(senior, junior), told)
        }
    }
}

/// Which row isn't answered so, from 0, if one isn't; or there is no room.
fn first_unanswered(alloc: Global, edition: Edition, rows: &[(Asked, &str)]) -> Option<usize> {
    let Ok(mut roles) = Roles::new(alloc, edition) else {
        return Some(0);
    };
    rows.iter()
        .position(|row| !is_answered(alloc, &mut roles, row))
}

#[test]
fn users_and_roles_are_taken_and_refused(rt: HostRuntime) {
    let unanswered = first_unanswered(rt.alloc(), Edition::First, &FIRST);
    assert!(rt; unanswered.is_none(), "{unanswered:?}");
}

#[test]
fn commentators_are_of_the_second_edition(rt: HostRuntime) {
    let unanswered = first_unanswered(rt.alloc(), Edition::Second, &SECOND);
    assert!(rt; unanswered.is_none(), "{unanswered:?}");
}
