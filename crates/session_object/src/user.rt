//! The users of a session object.

ghost use Rattle.std.specs.Prelude.{◌≡◌, [], Some, None, IfOk, IfErr};
ghost use Rattle.serde_json.specs.Find.{get};
ghost use Rattle.serde_json.specs.View.{view, items_view};
ghost use Rattle.json_fields.specs.Form.{each, formed};
ghost use Rattle.json_fields.specs.User.{role_of, user_roles};
ghost use Rattle.session_object.specs.Session.{seated, unseated, new_user_of, users};
ghost use Rattle.session_object.specs.Reading.{GivesPart, FailsPart};

use crate::session_fault::SessionFault;
use disclosure_rules::Seat;
use json_fields::{
    has_only, name_at, read_digest, read_number, read_pair, read_place, read_role, read_shown,
};
use serde_json::Value;
use session_opening::NewUser;
use session_roles::{Edition, Role};
use std::alloc::Global;
use table_terms::Items;
use user_names::{Digest, Name};

fn roles_in(alloc: Global, list: &[Value], edition: Edition) -> Result<Vec<Role>, SessionFault>
    ensures roles { IfOk result (λ roles. each (role_of edition) (items_view list.now) ≡ Some roles.items) }
    ensures fault { IfErr result (λ fault. FailsPart fault (each (role_of edition) (items_view list.now))) }
{
    let mut roles = Vec::new(alloc);
    for value in list {
        let Some(role) = read_role(value, edition) else {
            return Err(SessionFault::BadField);
        };
        roles.push(role)?;
    }
    Ok(roles)
}

fn roles_of(alloc: Global, value: &Value, edition: Edition) -> Result<Items<Role>, SessionFault>
    ensures { GivesPart result ((user_roles edition).value (get (user_roles edition).name (view value.now))) }
{
    let Some(member) = value.get("roles") else {
        return Err(SessionFault::BadField);
    };
    match member.as_array() {
        Some(list) => Ok(Items::new(roles_in(alloc, list.as_slice(), edition)?)),
        None => Err(SessionFault::BadField),
    }
}

fn unseated_user(alloc: Global, value: &Value, edition: Edition) -> Result<NewUser, SessionFault>
    ensures { GivesPart result (formed [] (unseated edition) (view value.now)) }
{
    if !has_only(value, &["digest", "name", "number", "roles", "shown"]) {
        return Err(SessionFault::BadField);
    }
    let Some(digest) = read_digest(value) else {
        return Err(SessionFault::BadField);
    };
    let Some(name) = name_at(value, "name") else {
        return Err(SessionFault::BadField);
    };
    let Some(number) = read_number(value) else {
        return Err(SessionFault::BadField);
    };
    let roles = roles_of(alloc, value, edition)?;
    let Some(shown) = read_shown(value) else {
        return Err(SessionFault::BadField);
    };
    Ok(NewUser {
        name,
        digest,
        roles,
        seat: None,
        shown,
        number,
    })
}

fn seated_user(alloc: Global, value: &Value, edition: Edition) -> Result<NewUser, SessionFault>
    ensures { GivesPart result (formed [] (seated edition) (view value.now)) }
{
    if !has_only(
        value,
        &[
            "digest", "name", "number", "pair", "place", "roles", "shown",
        ],
    ) {
        return Err(SessionFault::BadField);
    }
    let Some(digest) = read_digest(value) else {
        return Err(SessionFault::BadField);
    };
    let Some(name) = name_at(value, "name") else {
        return Err(SessionFault::BadField);
    };
    let Some(number) = read_number(value) else {
        return Err(SessionFault::BadField);
    };
    let Some(pair) = read_pair(value) else {
        return Err(SessionFault::BadField);
    };
    let Some(place) = read_place(value) else {
        return Err(SessionFault::BadField);
    };
    let roles = roles_of(alloc, value, edition)?;
    let Some(shown) = read_shown(value) else {
        return Err(SessionFault::BadField);
    };
    Ok(NewUser {
        name,
        digest,
        roles,
        seat: Some(Seat { pair, place }),
        shown,
        number,
    })
}

#[tactic(auto, unfolding(crate::specs::Session::new_user_of))]
fn new_user_of(alloc: Global, value: &Value, edition: Edition) -> Result<NewUser, SessionFault>
    ensures { GivesPart result (new_user_of edition (view value.now)) }
{
    match value.get("pair") {
        Some(_) => seated_user(alloc, value, edition),
        None => unseated_user(alloc, value, edition),
    }
}

fn users_in(alloc: Global, list: &[Value], edition: Edition) -> Result<Items<NewUser>, SessionFault>
    ensures users { IfOk result (λ users. each (new_user_of edition) (items_view list.now) ≡ Some users) }
    ensures fault { IfErr result (λ fault. FailsPart fault (each (new_user_of edition) (items_view list.now))) }
{
    let mut users = Vec::new(alloc);
    for value in list {
        let user = new_user_of(alloc, value, edition)?;
        users.push(user)?;
    }
    Ok(Items::new(users))
}

pub(crate) fn users_of(
    alloc: Global,
    value: &Value,
    edition: Edition,
) -> Result<Items<NewUser>, SessionFault>
    ensures { GivesPart result ((users edition).value (get (users edition).name (view value.now))) }
{
    let Some(member) = value.get("users") else {
        return Err(SessionFault::BadField);
    };
    match member.as_array() {
        Some(list) => users_in(alloc, list.as_slice(), edition),
        None => Err(SessionFault::BadField),
    }
}
