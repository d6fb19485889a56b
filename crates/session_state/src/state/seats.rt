//! Why a command on a seat is refused, and what it does to a state.
ghost use Rattle.std.specs.Prelude.{◌≡◌, None};
ghost use Rattle.rbac.specs.RoleData.{after_change};
ghost use Rattle.session_roles.specs.declared.role.Role.TheVariants.{Contestant};
ghost use Rattle.disclosure_rules.specs.Policy.{is_authorized};
ghost use Rattle.session_state.specs.Accounts.{is_authorized_for, seats_a_stranger};
ghost use Rattle.session_state.specs.Apply.{effect};
ghost use Rattle.session_state.specs.Refusal.{first_cause, hindrance_of, own_causes};
ghost use Rattle.session_state.specs.Seats.{has_seat};
ghost use Rattle.session_commands.specs.declared.command.Command.TheVariants as command;

use crate::causes::first_cause;
use crate::seated::{Seated, is_of_side};
use crate::state::State;
use disclosure_rules::Seat;
use rbac::{Change, Roles};
use session_commands::Refusal;
use session_commands::room::put_item;
use session_roles::{Role, RoleSet};
use user_names::Name;

impl State {
    pub(super) fn seat_cause(&self, name: Name, seat: Seat) -> Option<Refusal>
        ensures { result ≡ first_cause (own_causes self.now (command.Seat name seat.pair seat.place)) }
    {
        first_cause(&[
            (!self.public().movement.has_pair(seat.pair)).then_some(Refusal::NoSuchPair),
            (!is_of_side(seat.pair, seat.place)).then_some(Refusal::WrongDirection),
            (!self.viewer(name).is_authorized(Role::Contestant)).then_some(Refusal::NotContestant),
            self.has_seat(name).then_some(Refusal::AlreadySeated),
            self.is_taken(seat).then_some(Refusal::SeatTaken),
        ])
    }

    // Seats a user.
    pub(super) fn take_seat(&mut self, name: Name, seat: Seat)
        requires { hindrance_of self.old (command.Seat name seat.pair seat.place) ≡ None }
        ensures { self.new ≡ effect self.old (command.Seat name seat.pair seat.place) }
    {
        put_item(&mut self.seats, Seated { name, seat });
    }

    pub(super) fn unseat_cause(&self, name: Name) -> Option<Refusal>
        ensures { result ≡ first_cause (own_causes self.now (command.Unseat name)) }
    {
        (!self.has_seat(name)).then_some(Refusal::NotSeated)
    }

    // Takes a user's seat away.
    pub(super) fn unseat(&mut self, name: Name)
        ensures { self.new ≡ effect self.old (command.Unseat name) }
    {
        self.seats.retain(|seated| seated.name != name);
    }

    // Whether a user sits somewhere.
    fn has_seat(&self, name: Name) -> bool
        ensures { result ≡ has_seat self.now.seats name }
    {
        self.seats.iter().any(|seated| seated.name == name)
    }

    // Whether a seated user would not be authorized for Contestant after a change.
    pub(super) fn seats_a_stranger_if(&self, change: Change<'_>) -> bool
        ensures { result ≡ seats_a_stranger (after_change self.now.roles change.entry) self.now.seats }
    {
        self.seats.iter().any(|seated| !is_contestant_if(&self.roles, seated.name, change))
    }
}

// Whether a user would be authorized for Contestant after a change.
fn is_contestant_if(roles: &Roles, name: Name, change: Change<'_>) -> bool
    ensures { result ≡ is_authorized_for (after_change roles.now change.entry) name Contestant }
{
    is_contestant(roles.authorized_if(name.as_str(), change))
}

// Whether Contestant is among a user's roles.
fn is_contestant(roles: Option<RoleSet>) -> bool
    ensures { result ≡ is_authorized roles Contestant }
{
    match roles {
        Some(roles) => roles.has(Role::Contestant),
        None => false,
    }
}
