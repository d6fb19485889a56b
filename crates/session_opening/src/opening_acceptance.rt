//! When a session isn't opened.

ghost use Rattle.std.specs.Prelude.{◌≡◌, [], ◌∷◌, Some, find, option_map};
ghost use Rattle.std.specs.List.{list_any};
ghost use Rattle.rbac.specs.Account.{same_name};
ghost use Rattle.session_roles.specs.Role.{has};
ghost use Rattle.session_roles.specs.Separation.{separation_sets, has_both};
ghost use Rattle.session_roles.specs.declared.role.Role.TheVariants.{Administrator};
ghost use Rattle.session_opening.specs.NewUser.{set_of, repeats, knows_roles, authorized_at_opening};
ghost use Rattle.session_opening.specs.Opening.{opening_seats};
ghost use Rattle.session_opening.specs.OpeningRefusal.{account_causes, seat_causes, user_causes, users_causes, opening_refusal};
ghost use Rattle.session_state.specs.Refusal.{first_cause};
ghost use Rattle.session_opening.specs.declared.opening_refusal.OpeningRefusal.TheVariants.{Separation};
ghost use Rattle.session_state.specs.Seats.{same_seat, is_taken};

use crate::config::Config;
use crate::new_user::NewUser;
use crate::opening_refusal::OpeningRefusal;
use disclosure_rules::Seat;
use movement::Movement;
use rbac::{Roles, is_user_name};
use session_roles::{Edition, Role, RoleSet, SeparationSet};
use session_state::{first_cause, is_of_side};
use user_names::Name;

/// The first cause not to open a session, if one is met.
pub fn opening_refusal(config: &Config) -> Option<OpeningRefusal>
    ensures { result ≡ opening_refusal config.now }
{
    let users = config.users.as_slice();
    let refused = users_refusal(config.edition, &config.movement, users);
    if refused.is_some() {
        return refused;
    }
    (!has_administrator(config.edition, users)).then_some(OpeningRefusal::LastAdministrator)
}

// The first cause in the users, one after another.
fn users_refusal(edition: Edition, movement: &Movement, users: &[NewUser]) -> Option<OpeningRefusal>
    ensures { result ≡ first_cause (users_causes edition movement.now [] users.now) }
{
    for place in 0..users.len() {
        let refused = user_refusal(edition, movement, &users[..place], &users[place]);
        if refused.is_some() {
            return refused;
        }
    }
    None
}

// The first cause in a user, after the users before it.
fn user_refusal(
    edition: Edition,
    movement: &Movement,
    before: &[NewUser],
    user: &NewUser,
) -> Option<OpeningRefusal>
    ensures { result ≡ first_cause (user_causes edition movement.now before.now user.now) }
{
    let refused = account_refusal(edition, before, user);
    if refused.is_some() {
        return refused;
    }
    match user.seat {
        Some(seat) => seat_refusal(edition, movement, before, user, seat),
        None => None,
    }
}

// The first cause in a user's account.
fn account_refusal(edition: Edition, before: &[NewUser], user: &NewUser) -> Option<OpeningRefusal>
    ensures { result ≡ first_cause (account_causes edition before.now user.now) }
{
    first_cause(&[
        (!is_user_name(user.name.as_str())).then_some(OpeningRefusal::BadName),
        has_account(before, user.name).then_some(OpeningRefusal::UserExists),
        (before.len() >= Roles::MOST_USERS).then_some(OpeningRefusal::TooManyUsers),
        (!knows_roles(edition, user.roles.as_slice())).then_some(OpeningRefusal::NoSuchRole),
        repeats(user.roles.as_slice()).then_some(OpeningRefusal::AlreadyAssigned),
        separation_refusal(edition, user),
    ])
}

// The first separation set both of whose roles the user is authorized for.
fn separation_refusal(edition: Edition, user: &NewUser) -> Option<OpeningRefusal>
    ensures { result ≡
        option_map Separation (find (has_both (authorized_at_opening edition user.now)) separation_sets) }
{
    match SeparationSet::first_broken_by(authorized_at_opening(edition, user)) {
        Some(set) => Some(OpeningRefusal::Separation(set)),
        None => None,
    }
}

// The first cause in a user's seat.
fn seat_refusal(
    edition: Edition,
    movement: &Movement,
    before: &[NewUser],
    user: &NewUser,
    seat: Seat,
) -> Option<OpeningRefusal>
    ensures { result ≡ first_cause (seat_causes edition movement.now before.now user.now (Some seat)) }
{
    let contestant = authorized_at_opening(edition, user).has(Role::Contestant);
    first_cause(&[
        (!movement.has_pair(seat.pair)).then_some(OpeningRefusal::NoSuchPair),
        (!is_of_side(seat.pair, seat.place)).then_some(OpeningRefusal::WrongDirection),
        (!contestant).then_some(OpeningRefusal::NotContestant),
        is_taken(before, seat).then_some(OpeningRefusal::SeatTaken),
    ])
}

// Whether a user has the name.
fn has_account(users: &[NewUser], name: Name) -> bool
    ensures { result ≡ list_any (λ user. same_name user.name name) users.now }
{
    users.iter().any(|user| user.name == name)
}

// Whether somebody is authorized for Administrator.
fn has_administrator(edition: Edition, users: &[NewUser]) -> bool
    ensures { result ≡ list_any (λ user. has (authorized_at_opening edition user) Administrator) users.now }
{
    users.iter().any(|user| authorized_at_opening(edition, user).has(Role::Administrator))
}

// The roles for which a new user is authorized.
fn authorized_at_opening(edition: Edition, user: &NewUser) -> RoleSet
    ensures { result ≡ authorized_at_opening edition user.now }
{
    Roles::authorized_at_opening(edition, set_of(user.roles.as_slice()))
}

// The roles of a list, as a set.
fn set_of(list: &[Role]) -> RoleSet
    ensures { result ≡ set_of list.now }
{
    let mut set = RoleSet::new();
    for role in list {
        set = set.with(*role);
    }
    set
}

// Whether an edition knows all roles of a list.
fn knows_roles(edition: Edition, list: &[Role]) -> bool
    ensures { result ≡ knows_roles edition list.now }
{
    list.iter().all(|role| role.is_of(edition))
}

// Whether some role stands twice in a list. There are seven roles, so that this is known after eight of them.
fn repeats(list: &[Role]) -> bool
    ensures { result ≡ repeats list.now }
{
    for place in 0..list.len() {
        if stands_in(list[place], &list[place + 1..]) {
            return true;
        }
    }
    false
}

fn stands_in(role: Role, list: &[Role]) -> bool
    ensures { result ≡ has list.now role }
{
    list.iter().any(|other| role == *other)
}

// Whether somebody sits there.
fn is_taken(users: &[NewUser], seat: Seat) -> bool
    ensures { result ≡ list_any (λ user. is_taken (opening_seats (user ∷ [])) seat) users.now }
{
    users.iter().any(|user| sits_at(user, seat))
}

fn sits_at(user: &NewUser, seat: Seat) -> bool
    ensures { result ≡ is_taken (opening_seats (user.now ∷ [])) seat }
{
    match user.seat {
        Some(other) => other == seat,
        None => false,
    }
}
