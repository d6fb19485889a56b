//! The users of a session, made of its people.

ghost use Rattle.std.specs.Prelude.{◌≡◌, ◌&&◌, true, nat_eq, length, is_some, IfOk, IfSome};
ghost use Rattle.hex.specs.Hex.{IsBytes};
ghost use Rattle.user_names.specs.MemberNumber.{is_member_number};
ghost use Rattle.preparing.specs.Guests.{AreUsersOfGuests, IsUserOfGuest};
ghost use Rattle.preparing.specs.Users.{roles_given};

use crate::guest::Guest;
use people_list::Person;
use session_opening::NewUser;
use session_roles::Role;
use std::alloc::{AllocError, Global};
use table_terms::Items;
use user_names::MemberNumber;

/// The users of a session, in the order of its people.
pub(crate) fn users_of(alloc: Global, guests: &[Guest<'_>]) -> Result<Items<NewUser>, AllocError>
    ensures { IfOk result (λ users. AreUsersOfGuests guests.now users) }
{
    let mut users = Vec::new(alloc);
    for guest in guests {
        let user = user_of(alloc, guest)?;
        users.push(user)?;
    }
    Ok(Items::new(users))
}

fn user_of(alloc: Global, guest: &Guest<'_>) -> Result<NewUser, AllocError>
    ensures { IfOk result (IsUserOfGuest guest.now) }
{
    let person = guest.person;
    let roles = roles_of(alloc, person)?;
    // A name is short, and a name to show may be shown.
    let _name = guest.name.as_str();
    let _shown = person.shown.as_str();
    let digest = guest.token.digest();
    are_bytes(&digest.bytes);
    Ok(NewUser {
        name: guest.name,
        digest,
        roles,
        seat: person.seat,
        shown: person.shown,
        number: number_of(person),
    })
}

// What lies in a slice are bytes.
fn are_bytes(bytes: &[u8])
    ensures { IsBytes bytes.now }
{}

// The number of a person, which is one where there is one.
fn number_of(person: &Person) -> Option<MemberNumber>
    ensures same { result ≡ person.now.number }
    ensures number { IfSome result (λ number. is_member_number number ≡ true) }
{
    let number = person.number?;
    let _text = number.as_str();
    Some(number)
}

// The roles of a person: who sits somewhere and has no other role is a contestant.
fn roles_of(alloc: Global, person: &Person) -> Result<Items<Role>, AllocError>
    ensures { IfOk result (λ roles. roles ≡ roles_given person.now.roles person.now.seat) }
{
    let mut roles = Vec::new(alloc);
    if only_sits(person) {
        roles.push(Role::Contestant)?;
        return Ok(Items::new(roles));
    }
    roles.extend_from_slice(person.roles.as_slice())?;
    Ok(Items::new(roles))
}

fn only_sits(person: &Person) -> bool
    ensures { result ≡ (nat_eq (length person.now.roles) 0 && is_some person.now.seat) }
{
    person.roles.as_slice().is_empty() && person.seat.is_some()
}
