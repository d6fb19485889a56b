//! Which member of a session object isn't as it should be.

ghost use Rattle.std.specs.Prelude.{◌≡◌, ◌<◌, None, Some, is_some, IfOk, codes, true, false, option_map};
ghost use Rattle.std.specs.List.{list_all};
ghost use Rattle.serde_json.specs.Data.{Data};
ghost use Rattle.serde_json.specs.Find.{get};
ghost use Rattle.serde_json.specs.View.{view, items_view};
ghost use Rattle.json_fields.specs.Form.{each};
ghost use Rattle.json_fields.specs.Field.{elements, is_shown_within};
ghost use Rattle.json_fields.specs.User.{role_of, user_roles};
ghost use Rattle.session_object.specs.Reading.{IsObjectText};
ghost use Rattle.session_object.specs.NoticeMembers.{title, date, reason_said, reasons_in, reasons};
ghost use Rattle.session_object.specs.Session.{edition_numbered, edition_said, session_edition};
ghost use Rattle.session_check.specs.Members.{is_read, of_user, unseated_misread, seated_misread, user_misread, users_misread, later_misread, has_boards, session_misread, users_or_movement, misread_at};

use crate::member::{MemberAt, MemberName};
use json_fields::{
    has_only, limited_at, name_at, read_absent, read_digest, read_number, read_pair, read_place,
    read_role, read_shown, small_number_at, small_number_if_there, text_at,
};
use notices::{NoticeText, Notices};
use serde_json::Value;
use session_object::{has_session_members, is_date};
use session_roles::Edition;
use std::alloc::{AllocError, Global};
use std::str;
use user_names::is_shown_text;

/// The most visits of a solver's call.
const MOST_VISITS: u64 = 1_000_000_000_000_000_000;

/// Which member of a session object that says no session isn't as it should be: the first of the session's, or of a user's; or
/// the movement, with what stands beside it. The boards are given beside it, or stand in it.
pub fn first_misread(alloc: Global, text: &[u8], beside: bool) -> Result<MemberAt, AllocError>
    requires { (d : Data) × IsObjectText text.now d }
    ensures { IfOk result (λ found. (d : Data) × IsObjectText text.now d × (found ≡ misread_at beside d)) }
{
    let Ok(text) = str::from_utf8(text) else {
        unreachable!()
    };
    match Value::from_str(alloc, text) {
        Ok(value) => Ok(misread_at(&value, beside)),
        Err(error) if error.is_memory() => Err(AllocError),
        Err(_) => unreachable!(),
    }
}

/// The same of an object that was read.
#[tactic(auto, unfolding(crate::specs::Members::misread_at))]
pub(crate) fn misread_at(value: &Value, beside: bool) -> MemberAt
    ensures { result ≡ misread_at beside (view value.now) }
{
    let edition = edition_said(value);
    match session_misread(value, beside) {
        Some(name) => MemberAt { user: None, name },
        None => users_or_movement(value, edition),
    }
}

fn users_or_movement(value: &Value, edition: Edition) -> MemberAt
    ensures { result ≡ users_or_movement edition (elements (get (codes "users") (view value.now))) }
{
    let Some(member) = value.get("users") else {
        return of_session(MemberName::Users);
    };
    match member.as_array() {
        Some(list) => match users_misread(list.as_slice(), edition) {
            Some(found) => found,
            None => of_session(MemberName::Movement),
        },
        None => of_session(MemberName::Users),
    }
}

fn of_session(name: MemberName) -> MemberAt
    ensures user { result.user ≡ None }
    ensures name { result.name ≡ name }
{
    MemberAt { user: None, name }
}

// ---- the session's

fn session_misread(value: &Value, beside: bool) -> Option<MemberName>
    ensures { result ≡ session_misread beside (view value.now) }
{
    if !has_session_members(value, beside) {
        return Some(MemberName::Listed);
    }
    if read_absent(value).is_none() {
        return Some(MemberName::Absent);
    }
    if limited_at(value, "budget", MOST_VISITS).is_none() {
        return Some(MemberName::Budget);
    }
    if !has_date(value) {
        return Some(MemberName::Date);
    }
    if read_edition(value).is_none() {
        return Some(MemberName::Edition);
    }
    if !has_boards(value, beside) {
        return Some(MemberName::Pbn);
    }
    later_misread(value)
}

// Whether the boards are given beside the object, or it has their text.
fn has_boards(value: &Value, beside: bool) -> bool
    ensures { result ≡ has_boards beside (view value.now) }
{
    beside || text_at(value, "pbn").is_some()
}

fn later_misread(value: &Value) -> Option<MemberName>
    ensures { result ≡ later_misread (view value.now) }
{
    if small_number_at(value, "per_set").is_none() {
        return Some(MemberName::PerSet);
    }
    if !has_reasons(value) {
        return Some(MemberName::Reasons);
    }
    if small_number_at(value, "rounds").is_none() {
        return Some(MemberName::Rounds);
    }
    if small_number_if_there(value, "shared_by").is_none() {
        return Some(MemberName::SharedBy);
    }
    if small_number_if_there(value, "switched").is_none() {
        return Some(MemberName::Switched);
    }
    if small_number_at(value, "tables").is_none() {
        return Some(MemberName::Tables);
    }
    if !has_title(value) {
        return Some(MemberName::Title);
    }
    None
}

// ---- what the session tells its members of itself

#[tactic(auto, unfolding(json_fields::specs::Field::is_shown_within))]
fn is_shown_within(text: &str, most: usize) -> bool
    ensures { result ≡ is_shown_within most text.now }
{
    text.len() <= most && is_shown_text(text)
}

fn has_title(value: &Value) -> bool
    ensures { result ≡ is_read title (view value.now) }
{
    let Some(member) = value.get("title") else {
        return true;
    };
    match member.as_str() {
        Some(text) => is_shown_within(text, Notices::MOST_TITLE),
        None => false,
    }
}

fn has_date(value: &Value) -> bool
    ensures { result ≡ is_read date (view value.now) }
{
    let Some(member) = value.get("date") else {
        return true;
    };
    match member.as_str() {
        Some(text) => is_date(text),
        None => false,
    }
}

fn has_reasons(value: &Value) -> bool
    ensures { result ≡ is_read reasons (view value.now) }
{
    let Some(member) = value.get("reasons") else {
        return true;
    };
    match member.as_array() {
        Some(list) => are_reasons(list.as_slice()),
        None => false,
    }
}

#[tactic(auto, using(json_fields::proofs::ListLemmas::item_count_of), unfolding(session_object::specs::NoticeMembers::reasons_in))]
fn are_reasons(list: &[Value]) -> bool
    ensures { result ≡ is_some (reasons_in (items_view list.now)) }
{
    if list.is_empty() || list.len() > Notices::MOST_REASONS {
        return false;
    }
    each_is_reason(list)
}

fn each_is_reason(list: &[Value]) -> bool
    ensures { result ≡ is_some (each reason_said (items_view list.now)) }
{
    all_reasons(list)
}

fn all_reasons(list: &[Value]) -> bool
    ensures { result ≡ list_all (λ value. is_some (reason_said (view value))) list.now }
{
    list.iter().all(|value| is_reason(value))
}

fn is_reason(value: &Value) -> bool
    ensures { result ≡ is_some (reason_said (view value.now)) }
{
    match value.as_str() {
        Some(text) => is_shown_within(text, NoticeText::MOST),
        None => false,
    }
}

// ---- the edition

fn edition_numbered(number: u64) -> Option<Edition>
    ensures { result ≡ edition_numbered number }
{
    match Edition::from_number(number) {
        Some(edition) => Some(edition),
        None => None,
    }
}

fn read_edition(value: &Value) -> Option<Edition>
    ensures { result ≡ session_edition.value (get session_edition.name (view value.now)) }
{
    match value.get("edition") {
        None => Some(Edition::First),
        Some(member) => match member.as_u64() {
            Some(number) => edition_numbered(number),
            None => None,
        },
    }
}

fn edition_said(value: &Value) -> Edition
    ensures { result ≡ edition_said (get (codes "edition") (view value.now)) }
{
    read_edition(value).unwrap_or(Edition::First)
}

// ---- the users'

// The first member of a user that isn't read, user by user.
fn users_misread(list: &[Value], edition: Edition) -> Option<MemberAt>
    ensures { result ≡ users_misread edition 1 (items_view list.now) }
{
    for place in 0..list.len() {
        let found = of_user(place + 1, user_misread(&list[place], edition));
        if found.is_some() {
            return found;
        }
    }
    None
}

fn of_user(number: usize, name: Option<MemberName>) -> Option<MemberAt>
    ensures { result ≡ option_map (of_user number) name }
{
    match name {
        Some(name) => Some(MemberAt {
            user: Some(number),
            name,
        }),
        None => None,
    }
}

#[tactic(auto, unfolding(crate::specs::Members::user_misread))]
fn user_misread(value: &Value, edition: Edition) -> Option<MemberName>
    ensures { result ≡ user_misread edition (view value.now) }
{
    match value.get("pair") {
        Some(_) => seated_misread(value, edition),
        None => unseated_misread(value, edition),
    }
}

fn unseated_misread(value: &Value, edition: Edition) -> Option<MemberName>
    ensures { result ≡ unseated_misread edition (view value.now) }
{
    if !has_only(value, &["digest", "name", "number", "roles", "shown"]) {
        return Some(MemberName::Listed);
    }
    if read_digest(value).is_none() {
        return Some(MemberName::Digest);
    }
    if name_at(value, "name").is_none() {
        return Some(MemberName::Name);
    }
    if read_number(value).is_none() {
        return Some(MemberName::Number);
    }
    if !has_roles(value, edition) {
        return Some(MemberName::Roles);
    }
    if read_shown(value).is_none() {
        return Some(MemberName::Shown);
    }
    None
}

fn seated_misread(value: &Value, edition: Edition) -> Option<MemberName>
    ensures { result ≡ seated_misread edition (view value.now) }
{
    if !has_only(
        value,
        &[
            "digest", "name", "number", "pair", "place", "roles", "shown",
        ],
    ) {
        return Some(MemberName::Listed);
    }
    if read_digest(value).is_none() {
        return Some(MemberName::Digest);
    }
    if name_at(value, "name").is_none() {
        return Some(MemberName::Name);
    }
    if read_number(value).is_none() {
        return Some(MemberName::Number);
    }
    if read_pair(value).is_none() {
        return Some(MemberName::Pair);
    }
    if read_place(value).is_none() {
        return Some(MemberName::Place);
    }
    if !has_roles(value, edition) {
        return Some(MemberName::Roles);
    }
    if read_shown(value).is_none() {
        return Some(MemberName::Shown);
    }
    None
}

fn has_roles(value: &Value, edition: Edition) -> bool
    ensures { result ≡ is_read (user_roles edition) (view value.now) }
{
    let Some(member) = value.get("roles") else {
        return false;
    };
    match member.as_array() {
        Some(list) => are_roles(list.as_slice(), edition),
        None => false,
    }
}

fn are_roles(list: &[Value], edition: Edition) -> bool
    ensures { result ≡ is_some (each (role_of edition) (items_view list.now)) }
{
    all_roles(list, edition)
}

fn all_roles(list: &[Value], edition: Edition) -> bool
    ensures { result ≡ list_all (λ value. is_some (role_of edition (view value))) list.now }
{
    list.iter().all(|value| is_role(value, edition))
}

fn is_role(value: &Value, edition: Edition) -> bool
    ensures { result ≡ is_some (role_of edition (view value.now)) }
{
    read_role(value, edition).is_some()
}
