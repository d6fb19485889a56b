//! The state in which a session opens.

ghost use Rattle.std.specs.Prelude.{◌≡◌, ◌⊎◌, ◌+◌, ◌<◌, ◌≤◌, [], ◌∷◌, ◌++◌, length, map, vec_len, vec_capacity, None, Some, IfOk, IfErr};
ghost use Rattle.movement.specs.Movement.{boards_of, most_boards};
ghost use Rattle.rbac.specs.Account.{most_users};
ghost use Rattle.rbac.specs.Authorization.{KeepsSeparation};
ghost use Rattle.session_opening.specs.Joining.{MayJoin, JoinInTurn, with_user};
ghost use Rattle.session_opening.specs.Opening.{opening_roles, opening_seats, opening_marks, opening_public, boards_in_play, opening_of};
ghost use Rattle.session_opening.specs.OpeningRefusal.{opening_refusal};
ghost use Rattle.session_opening.specs.declared.opening_refusal.OpeningRefusal.TheVariants.{OutOfMemory};

use crate::config::Config;
use crate::new_user::NewUser;
use crate::opening_acceptance::opening_refusal;
use crate::opening_refusal::OpeningRefusal;
use cards::Deal;
use disclosure_rules::{Boards, LiveCells, Marks, Phase, Public};
use movement::Movement;
use rbac::Roles;
use session_commands::room::put_item;
use session_roles::{Edition, Role};
use session_state::{Seated, State};
use std::alloc::{AllocError, Global};
use table_terms::{Place, Vulnerability};
use user_names::{Digest, ShownName};

/// What stands in the place of a board that isn't played.
const NO_MARKS: Marks = Marks {
    dealer: Place::North,
    vulnerability: Vulnerability::Neither,
};

impl Config {
    /// The state in which the session opens: nothing is entered yet, and there is room for all that a state can need.
    pub fn open(&self, alloc: Global) -> Result<State, OpeningRefusal>
        requires { boards_of self.now.movement ≤ length self.now.boards }
        ensures opening { IfOk result (λ state. state ≡ opening_of self.now) }
        ensures ok { IfOk result (λ state. opening_refusal self.now ≡ None) }
        ensures err { IfErr result (λ cause. (opening_refusal self.now ≡ Some cause)
            ⊎ ((cause ≡ OutOfMemory) × (opening_refusal self.now ≡ None))) }
    {
        if let Some(cause) = opening_refusal(self) {
            return Err(cause);
        }
        match opening_state(alloc, self) {
            Ok(state) => Ok(state),
            Err(_) => Err(OpeningRefusal::OutOfMemory),
        }
    }
}

// The opening state, where nothing refuses it.
fn opening_state(alloc: Global, config: &Config) -> Result<State, AllocError>
    requires boards { boards_of config.now.movement ≤ length config.now.boards }
    requires allowed { opening_refusal config.now ≡ None }
    ensures { IfOk result (λ state. state ≡ opening_of config.now) }
{
    let users = config.users.as_slice();
    let roles = roles(alloc, config.edition, users)?;
    let digests = digests(alloc, users)?;
    let names = names(alloc, users)?;
    let seats = seats(alloc, users)?;
    let deals = deals(alloc, config)?;
    let notices = config.notices.copy(alloc)?;
    State::new(
        alloc,
        roles,
        digests,
        names,
        seats,
        public(config),
        deals,
        notices,
    )
}

// The users and their roles.
fn roles(alloc: Global, edition: Edition, users: &[NewUser]) -> Result<Roles, AllocError>
    requires { JoinInTurn edition users.now }
    ensures { IfOk result (λ roles. roles ≡ opening_roles edition users.now) }
{
    let mut roles = Roles::new(alloc, edition)?;
    for user in users {
        join(&mut roles, user);
    }
    Ok(roles)
}

// Adds a user whom nothing refuses, with the roles.
fn join(roles: &mut Roles, user: &NewUser)
    requires may_join { MayJoin roles.old user.now }
    requires separate { KeepsSeparation roles.old }
    ensures joined { roles.new ≡ with_user roles.old user.now }
    ensures separate { KeepsSeparation roles.new }
{
    roles.add_user_unrefused(user.name);
    for role in user.roles.as_slice() {
        roles.assign_unrefused(user.name.as_str(), *role);
    }
}

// The digests of the users' tokens.
fn digests(alloc: Global, users: &[NewUser]) -> Result<Vec<Digest>, AllocError>
    requires { length users.now ≤ most_users }
    ensures items { IfOk result (λ digests. digests.items ≡ map (λ user. user.digest) users.now) }
    ensures room { IfOk result (λ digests. most_users ≤ vec_capacity digests) }
{
    let mut digests = Vec::with_capacity(alloc, Roles::MOST_USERS)?;
    for user in users {
        put_item(&mut digests, user.digest);
    }
    Ok(digests)
}

// The users' names to show.
fn names(alloc: Global, users: &[NewUser]) -> Result<Vec<ShownName>, AllocError>
    requires { length users.now ≤ most_users }
    ensures items { IfOk result (λ names. names.items ≡ map (λ user. user.shown) users.now) }
    ensures room { IfOk result (λ names. most_users ≤ vec_capacity names) }
{
    let mut names = Vec::with_capacity(alloc, Roles::MOST_USERS)?;
    for user in users {
        put_item(&mut names, user.shown);
    }
    Ok(names)
}

// Where the users sit.
fn seats(alloc: Global, users: &[NewUser]) -> Result<Vec<Seated>, AllocError>
    requires { length users.now ≤ most_users }
    ensures items { IfOk result (λ seats. seats.items ≡ opening_seats users.now) }
    ensures room { IfOk result (λ seats. most_users ≤ vec_capacity seats) }
{
    let mut seats = Vec::with_capacity(alloc, Roles::MOST_USERS)?;
    for user in users {
        sit(&mut seats, user);
    }
    Ok(seats)
}

// Adds where a user sits, if the user has a seat.
fn sit(seats: &mut Vec<Seated>, user: &NewUser)
    requires { vec_len seats.old < vec_capacity seats.old }
    ensures items { seats.new.items ≡ seats.old.items ++ opening_seats (user.now ∷ []) }
    ensures len { vec_len seats.new ≤ vec_len seats.old + 1 }
    ensures capacity { vec_capacity seats.old ≤ vec_capacity seats.new }
{
    if let Some(seat) = user.seat {
        let name = user.name;
        put_item(seats, Seated { name, seat });
    }
}

// What every member may see before the first board is played.
fn public(config: &Config) -> Public
    requires { boards_of config.now.movement ≤ length config.now.boards }
    ensures { result ≡ opening_public config.now }
{
    Public {
        movement: config.movement.copy(),
        marks: marks(config),
        round: 1,
        phase: Phase::Running,
        edition: config.edition,
        embargo: false,
        held: Boards::new(),
        live: LiveCells::new(),
    }
}

// The markings of the boards.
fn marks(config: &Config) -> [Marks; Movement::MOST_BOARDS as usize]
    requires { boards_of config.now.movement ≤ length config.now.boards }
    ensures marks { result ≡ opening_marks (boards_in_play config.now) }
    ensures places { length result ≡ most_boards }
{
    let mut marks = [NO_MARKS; Movement::MOST_BOARDS as usize];
    for place in 0..config.movement.boards() {
        marks[place as usize] = Marks {
            dealer: config.boards.dealer(place + 1),
            vulnerability: config.boards.vulnerability(place + 1),
        };
    }
    marks
}

// The hands of the boards.
fn deals(alloc: Global, config: &Config) -> Result<Vec<Deal>, AllocError>
    requires { boards_of config.now.movement ≤ length config.now.boards }
    ensures { IfOk result (λ deals. deals.items ≡ map (λ board. board.deal) (boards_in_play config.now)) }
{
    let boards = config.movement.boards();
    let mut deals = Vec::with_capacity(alloc, boards as usize)?;
    for place in 0..boards {
        put_item(&mut deals, config.boards.deal(place + 1));
    }
    Ok(deals)
}
