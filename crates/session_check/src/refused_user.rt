//! The user for whom a session isn't opened.

ghost use Rattle.std.specs.Prelude.{◌≡◌, ◌≢◌, ◌≤◌, ◌<◌, ◌+◌, length, take, get_or, Some, IfOk, IfSome, IfNone, false, option_map};
ghost use Rattle.std.specs.List.{position};
ghost use Rattle.movement.specs.Movement.{boards_of};
ghost use Rattle.session_opening.specs.OpeningRefusal.{opening_refusal};
ghost use Rattle.session_opening.specs.declared.new_user.NewUser.{NewUser};
ghost use Rattle.session_check.specs.Users.{with_users, with_first, is_of_user, IsRefusedUser, IsUserAt, same_seats, is_in_the_way, first_in_the_way};

use crate::refused::NamedUser;
use disclosure_rules::Seat;
use session_opening::{Config, NewUser, OpeningRefusal};
use std::alloc::{AllocError, Global};
use table_terms::Items;

/// The place, from 0, of the user for whom a session with these users isn't opened, if it isn't for one: it is opened
/// with the first user, then with the first two, until there is a refusal.
pub(crate) fn refused_user(
    alloc: Global,
    config: &mut Config,
    users: &[NewUser],
) -> Result<Option<usize>, AllocError>
    requires { boards_of config.old.movement ≤ length config.old.boards }
    ensures user { IfOk result (λ found. IfSome found (IsRefusedUser (with_users config.old users.now))) }
    ensures none { IfOk result (λ found. IfNone found
        (is_of_user (opening_refusal (with_users config.old users.now)) ≡ false)) }
{
    for many in 0..users.len() {
        let first = first_of(alloc, users, many + 1)?;
        config.users = first;
        let refused = is_refused_for_user(alloc, config)?;
        if refused {
            return Ok(Some(many));
        }
    }
    Ok(None)
}

// Whether the session isn't opened, and that for a user.
fn is_refused_for_user(alloc: Global, config: &Config) -> Result<bool, AllocError>
    requires { boards_of config.now.movement ≤ length config.now.boards }
    ensures { IfOk result (λ is. is ≡ is_of_user (opening_refusal config.now)) }
{
    match config.open(alloc) {
        Ok(_state) => Ok(false),
        Err(OpeningRefusal::OutOfMemory) => Err(AllocError),
        Err(OpeningRefusal::LastAdministrator) => Ok(false),
        Err(_) => Ok(true),
    }
}

// The first users, so many.
fn first_of(alloc: Global, users: &[NewUser], many: usize) -> Result<Items<NewUser>, AllocError>
    requires { many ≤ length users.now }
    ensures { IfOk result (λ first. first ≡ take many users.now) }
{
    let mut first = Vec::new(alloc);
    for place in 0..many {
        let copy = copy_of(alloc, &users[place])?;
        first.push(copy)?;
    }
    Ok(Items::new(first))
}

fn copy_of(alloc: Global, user: &NewUser) -> Result<NewUser, AllocError>
    ensures { IfOk result (λ copy. copy ≡ user.now) }
{
    let mut roles = Vec::new(alloc);
    roles.extend_from_slice(user.roles.as_slice())?;
    Ok(NewUser {
        roles: Items::new(roles),
        ..*user
    })
}

/// The user in a place, from 0.
pub(crate) fn user_at(users: &[NewUser], place: usize) -> NamedUser
    requires { place < length users.now }
    ensures { IsUserAt users.now place result }
{
    NamedUser {
        number: place + 1,
        name: users[place].name,
    }
}

/// The place of the first user before a place who is in the way of the user there, by the cause.
pub(crate) fn first_in_the_way(
    users: &[NewUser],
    place: usize,
    cause: OpeningRefusal,
) -> Option<usize>
    requires { place < length users.now }
    ensures first { (d : NewUser) → result ≡ first_in_the_way cause users.now place (get_or users.now place d) }
    ensures before { IfSome result (λ before. before < place) }
{
    first_of_these(cause, &users[place], &users[..place])
}

// The place of the first of those before who is in the way of a user.
fn first_of_these(cause: OpeningRefusal, user: &NewUser, before: &[NewUser]) -> Option<usize>
    ensures first { result ≡ position (is_in_the_way cause user.now) before.now }
    ensures there { IfSome result (λ place. place < length before.now) }
{
    before
        .iter()
        .position(|other| is_in_the_way(cause, user, other))
}

// Whether one before is in the way of a user.
fn is_in_the_way(cause: OpeningRefusal, user: &NewUser, before: &NewUser) -> bool
    ensures { result ≡ is_in_the_way cause user.now before.now }
{
    match cause {
        OpeningRefusal::UserExists => before.name == user.name,
        OpeningRefusal::SeatTaken => same_seats(before.seat, user.seat),
        _ => false,
    }
}

fn same_seats(one: Option<Seat>, other: Option<Seat>) -> bool
    ensures { result ≡ same_seats one other }
{
    match (one, other) {
        (Some(one), Some(other)) => one == other,
        _ => false,
    }
}
