//! People with what each signs in by.

ghost use Rattle.std.specs.Prelude.{◌≡◌, IfOk, IfSome};
ghost use Rattle.preparing.specs.Guests.{AreGuestsOf};

use crate::preparing_fault::PreparingFault;
use people_list::Person;
use sign_ins::{SignInToken, free_name, sign_in_base};
use std::alloc::Global;
use user_names::Name;

/// A person with what one signs in by.
#[derive(Clone, Copy)]
pub(crate) struct Guest<'a> {
    pub(crate) person: &'a Person,
    pub(crate) name: Name,
    pub(crate) token: &'a SignInToken,
}

/// The people in their order, each with the token in the same place. Nobody is left out: where tokens are fewer, there is a
/// fault.
pub(crate) fn guests_of<'a>(
    alloc: Global,
    people: &'a [Person],
    tokens: &'a [SignInToken],
) -> Result<Vec<Guest<'a>>, PreparingFault>
    ensures { IfOk result (λ guests. AreGuestsOf people.now tokens.now guests.items) }
{
    if tokens.len() < people.len() {
        return Err(PreparingFault::FewTokens);
    }
    let mut taken = wanted_names(alloc, people)?;
    let mut guests = Vec::new(alloc);
    for place in 0..people.len() {
        let person = &people[place];
        let name = name_of(alloc, person, taken.as_slice())?;
        taken.push(name)?;
        let guest = Guest {
            person,
            name,
            token: &tokens[place],
        };
        if guests.push(guest).is_err() {
            return Err(PreparingFault::OutOfMemory);
        }
    }
    Ok(guests)
}

// The names by which people want to sign in.
fn wanted_names(alloc: Global, people: &[Person]) -> Result<Vec<Name>, PreparingFault> {
    let mut names = Vec::new(alloc);
    for person in people {
        if let Some(name) = person.sign_in {
            names.push(name)?;
        }
    }
    Ok(names)
}

// The name by which a person signs in: the one that is wanted, or one that is made of the name to show.
fn name_of(alloc: Global, person: &Person, taken: &[Name]) -> Result<Name, PreparingFault>
    ensures { IfOk result (λ name. IfSome person.now.sign_in (λ wanted. name ≡ wanted)) }
{
    if let Some(name) = person.sign_in {
        return Ok(name);
    }
    let base = sign_in_base(alloc, person.shown.as_str())?;
    match free_name(alloc, base.as_str(), taken)? {
        Some(name) => Ok(name),
        None => Err(PreparingFault::NoFreeName(person.line)),
    }
}
