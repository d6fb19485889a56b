ghost use Rattle.std.specs.Prelude.{◌≡◌, ◌<◌, true, IfSome};
ghost use Rattle.class_views.specs.Classes.{class_of, class_of_seat, class_of_spectator, member_of};
ghost use Rattle.class_views.specs.Classes.{is_kept_class, is_kept_pair};
ghost use Rattle.class_views.specs.Places.{class_at, pair_at, class_places, pair_places};

use disclosure_rules::{Seat, Viewer};
use movement::Movement;
use session_roles::{Role, RoleSet};
use table_terms::{Pair, Place, Side};

/// Users whom the policy treats alike: a class follows from the roles and the seat alone.
#[derive(Clone, Copy)]
pub enum UserClass {
    /// Contestants who sit in a pair.
    OfPair(Pair),
    /// Contestants who don't sit in a pair that a section can have.
    Unseated,
    /// Spectators who are neither contestants nor commentators.
    Spectators,
    Directors,
    /// Commentators who are spectators and no contestants.
    Commentators,
}

impl UserClass {
    /// The class of a user; a user in none is shown nothing that belongs to a board.
    pub fn of(viewer: &Viewer) -> Option<UserClass>
        ensures class { result ≡ class_of viewer.now }
        ensures kept { IfSome result (λ class. is_kept_class class ≡ true) }
    {
        if !viewer.is_authorized(Role::Member) {
            None
        } else if viewer.is_authorized(Role::Director) {
            Some(UserClass::Directors)
        } else if viewer.is_authorized(Role::Contestant) {
            Some(class_of_seat(viewer.seat))
        } else if viewer.is_authorized(Role::Spectator) {
            Some(class_of_spectator(viewer))
        } else {
            None
        }
    }

    /// One user of the class.
    pub fn member(self) -> Viewer
        ensures { result ≡ member_of self }
    {
        let member = RoleSet::new().with(Role::Member);
        match self {
            UserClass::OfPair(pair) => Viewer {
                roles: Some(member.with(Role::Contestant)),
                seat: Some(Seat {
                    pair,
                    place: Place::North,
                }),
            },
            UserClass::Unseated => unseated(member.with(Role::Contestant)),
            UserClass::Spectators => unseated(member.with(Role::Spectator)),
            UserClass::Directors => unseated(member.with(Role::Director)),
            UserClass::Commentators => {
                unseated(member.with(Role::Spectator).with(Role::Commentator))
            }
        }
    }

    /// The class at a place among the classes.
    pub(crate) fn at(place: u8) -> UserClass
        ensures { result ≡ class_at place }
    {
        if place < PAIRS {
            return UserClass::OfPair(pair_at(place));
        }
        match place - PAIRS {
            0 => UserClass::Unseated,
            1 => UserClass::Spectators,
            2 => UserClass::Directors,
            _ => UserClass::Commentators,
        }
    }

    /// The place of the class among the classes.
    pub(crate) fn place(self) -> u8
        requires { is_kept_class self ≡ true }
        ensures place { class_at result ≡ self }
        ensures below { result < class_places }
    {
        match self {
            UserClass::OfPair(pair) => place_of(pair),
            UserClass::Unseated => PAIRS,
            UserClass::Spectators => PAIRS + 1,
            UserClass::Directors => PAIRS + 2,
            UserClass::Commentators => PAIRS + 3,
        }
    }
}

/// How many pairs a section has at most.
pub(crate) const PAIRS: u8 = 2 * Movement::MOST_TABLES;

/// How many classes there are.
pub(crate) const CLASSES: u8 = PAIRS + 4;

/// The class of contestants with this seat, if they sit.
fn class_of_seat(seat: Option<Seat>) -> UserClass
    ensures class { result ≡ class_of_seat seat }
    ensures kept { is_kept_class result ≡ true }
{
    match seat {
        Some(seat) if is_kept_pair(seat.pair) => UserClass::OfPair(seat.pair),
        _ => UserClass::Unseated,
    }
}

/// The class of a spectator who is neither a director nor a contestant.
fn class_of_spectator(viewer: &Viewer) -> UserClass
    ensures class { result ≡ class_of_spectator viewer.now }
    ensures kept { is_kept_class result ≡ true }
{
    if viewer.is_authorized(Role::Commentator) {
        UserClass::Commentators
    } else {
        UserClass::Spectators
    }
}

/// Whether a section can have the pair.
fn is_kept_pair(pair: Pair) -> bool
    ensures { result ≡ is_kept_pair pair }
{
    1 <= pair.number && pair.number <= Movement::MOST_TABLES
}

/// A user with these roles who doesn't sit.
fn unseated(roles: RoleSet) -> Viewer
    ensures { result ≡ record { roles = Some roles; seat = None } }
{
    Viewer {
        roles: Some(roles),
        seat: None,
    }
}

/// The pair at a place: North-South 1, 2, .. and then East-West 1, 2, ..
#[tactic(auto, unfolding(crate::specs::Places::pair_at))]
pub(crate) fn pair_at(place: u8) -> Pair
    requires { place < pair_places }
    ensures { result ≡ pair_at place }
{
    if place < Movement::MOST_TABLES {
        Pair {
            side: Side::NorthSouth,
            number: place + 1,
        }
    } else {
        Pair {
            side: Side::EastWest,
            number: place - Movement::MOST_TABLES + 1,
        }
    }
}

/// The place of a pair.
pub(crate) fn place_of(pair: Pair) -> u8
    requires { is_kept_pair pair ≡ true }
    ensures place { pair_at result ≡ pair }
    ensures below { result < pair_places }
{
    match pair.side {
        Side::NorthSouth => pair.number - 1,
        Side::EastWest => Movement::MOST_TABLES + pair.number - 1,
    }
}
