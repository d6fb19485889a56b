//! The users of a session, each by the members that one has.

ghost use Rattle.std.specs.Prelude.{◌≡◌, IfOk, codes, map, take};
ghost use Rattle.serde_json.specs.Data.{Members, array, no_members, put, string};
ghost use Rattle.serde_json.specs.View.{view, items_of};
ghost use Rattle.json_fields.specs.Written.{HasItems, HasMembers};
ghost use Rattle.hex.specs.Hex.{encode_lower};
ghost use Rattle.session_text.specs.Members.{put_if_there};
ghost use Rattle.session_text.specs.SessionData.{named_role, roles_data, shown_name_data, text_data, user_data};

use crate::members::with_seat;
use hex::encode;
use json_fields::{ArrayWriter, ObjectWriter, string_value};
use serde_json::Value;
use session_opening::NewUser;
use session_roles::Role;
use std::alloc::{AllocError, Global};
use table_terms::Items;
use user_names::{MemberNumber, Name, ShownName};

fn roles_value(alloc: Global, roles: &Items<Role>) -> Result<Value, AllocError>
    ensures { IfOk result (λ value. view value ≡ roles_data roles.now) }
{
    listed_roles(alloc, roles.as_slice())
}

fn listed_roles(alloc: Global, roles: &[Role]) -> Result<Value, AllocError>
    ensures { IfOk result (λ value. view value ≡ roles_data roles.now) }
{
    let mut items = ArrayWriter::new(alloc);
    for role in roles {
        items = items.item(role_value(alloc, *role));
    }
    items.array()
}

fn name_value(alloc: Global, name: &Name) -> Result<Value, AllocError>
    ensures { IfOk result (λ value. view value ≡ string name.now) }
{
    Value::try_from_str(alloc, name.as_str())
}

fn role_value(alloc: Global, role: Role) -> Result<Value, AllocError>
    ensures { IfOk result (λ value. view value ≡ named_role role) }
{
    Value::try_from_str(alloc, role.name())
}

fn number_value(alloc: Global, number: &MemberNumber) -> Result<Value, AllocError>
    ensures { IfOk result (λ value. view value ≡ string number.now) }
{
    Value::try_from_str(alloc, number.as_str())
}

fn shown_value(alloc: Global, shown: &ShownName) -> Result<Value, AllocError>
    ensures { IfOk result (λ value. view value ≡ string shown.now) }
{
    Value::try_from_str(alloc, shown.as_str())
}

// Adds a member's number, where there is one.
fn with_member_number(
    alloc: Global,
    writer: ObjectWriter,
    number: Option<MemberNumber>,
) -> ObjectWriter
    ensures { (members : Members) → HasMembers writer members →
        HasMembers result (put_if_there (codes "number") (text_data number) members) }
{
    match number {
        Some(number) => writer.member("number", number_value(alloc, &number)),
        None => writer,
    }
}

// Adds the name to show, where there is one.
#[tactic(auto, using(crate::proofs::TextLemmas::shown_none, crate::proofs::TextLemmas::shown_some))]
fn with_shown(alloc: Global, writer: ObjectWriter, shown: &ShownName) -> ObjectWriter
    ensures { (members : Members) → HasMembers writer members →
        HasMembers result (put_if_there (codes "shown") (shown_name_data shown.now) members) }
{
    if shown.is_none() {
        writer
    } else {
        writer.member("shown", shown_value(alloc, shown))
    }
}

// The digest, the name and the member's number.
fn first_members(alloc: Global, user: &NewUser) -> ObjectWriter
    ensures { HasMembers result (put_if_there (codes "number") (text_data user.now.number)
        (put (codes "name") (string user.now.name)
        (put (codes "digest") (string (encode_lower user.now.digest.bytes)) no_members))) }
{
    with_member_number(
        alloc,
        ObjectWriter::new(alloc)
            .member(
                "digest",
                string_value(encode(alloc, &user.digest.bytes[..])),
            )
            .member("name", name_value(alloc, &user.name)),
        user.number,
    )
}

fn user_value(alloc: Global, user: &NewUser) -> Result<Value, AllocError>
    ensures { IfOk result (λ value. view value ≡ user_data user.now) }
{
    with_shown(
        alloc,
        with_seat(alloc, first_members(alloc, user), user.seat).member(
            "roles",
            roles_value(alloc, &user.roles),
        ),
        &user.shown,
    )
    .object()
}

/// The users, in their order.
pub(crate) fn users_value(alloc: Global, users: &Items<NewUser>) -> Result<Value, AllocError>
    ensures { IfOk result (λ value. view value ≡ array (items_of (map user_data users.now))) }
{
    listed_users(alloc, users.as_slice())
}

fn listed_users(alloc: Global, users: &[NewUser]) -> Result<Value, AllocError>
    ensures { IfOk result (λ value. view value ≡ array (items_of (map user_data users.now))) }
{
    let mut items = ArrayWriter::new(alloc);
    for user in users {
        items = items.item(user_value(alloc, user));
    }
    items.array()
}
