//! The members that say who a user is, which roles one has, and where one sits.

ghost use Rattle.std.specs.Prelude.{◌≡◌, Some};
ghost use Rattle.serde_json.specs.Find.{get};
ghost use Rattle.serde_json.specs.View.{view};
ghost use Rattle.json_fields.specs.User.{shown_name, new_shown, member_number, digest_named, digest, role_named, role_of, pair_named, pair_said, pair, absent, place};

use crate::field::text_at;
use crate::letter::place_named;
use hex::FromHex;
use serde_json::Value;
use session_roles::{Edition, Role};
use table_terms::{Pair, Place};
use user_names::{Digest, MemberNumber, ShownName};

/// The name to show in the member `shown`, and none where it is missing.
pub fn read_shown(value: &Value) -> Option<ShownName>
    ensures { result ≡ shown_name.value (get shown_name.name (view value.now)) }
{
    match value.get("shown") {
        None => Some(ShownName::none()),
        Some(member) => match member.as_str() {
            Some(text) => ShownName::new(text).ok(),
            None => None,
        },
    }
}

/// The name to show, or none, in the member `shown`.
pub fn read_new_shown(value: &Value) -> Option<ShownName>
    ensures { result ≡ new_shown.value (get new_shown.name (view value.now)) }
{
    match text_at(value, "shown") {
        Some(text) => ShownName::or_none(text).ok(),
        None => None,
    }
}

/// The number in the member `number`, where there is one.
pub fn read_number(value: &Value) -> Option<Option<MemberNumber>>
    ensures { result ≡ member_number.value (get member_number.name (view value.now)) }
{
    match value.get("number") {
        None => Some(None),
        Some(member) => match member.as_str() {
            Some(text) => match MemberNumber::new(text) {
                Ok(number) => Some(Some(number)),
                Err(_) => None,
            },
            None => None,
        },
    }
}

fn digest_named(digits: &str) -> Option<Digest>
    ensures { result ≡ digest_named digits.now }
{
    match <[u8; 32] as FromHex>::from_hex(digits) {
        Ok(bytes) => Some(Digest { bytes }),
        Err(_) => None,
    }
}

/// The digest in the member `digest`.
pub fn read_digest(value: &Value) -> Option<Digest>
    ensures { result ≡ digest.value (get digest.name (view value.now)) }
{
    match text_at(value, "digest") {
        Some(digits) => digest_named(digits),
        None => None,
    }
}

/// The role of a name, if the edition knows it.
pub fn role_named(word: &str, edition: Edition) -> Option<Role>
    ensures { result ≡ role_named edition word.now }
{
    match Role::from_name(word) {
        Some(role) if role.is_of(edition) => Some(role),
        _ => None,
    }
}

/// The role that stands there, if the edition knows it.
#[tactic(auto, unfolding(crate::specs::User::role_of))]
pub fn read_role(value: &Value, edition: Edition) -> Option<Role>
    ensures { result ≡ role_of edition (view value.now) }
{
    match value.as_str() {
        Some(word) => role_named(word, edition),
        None => None,
    }
}

fn pair_named(word: &str) -> Option<Pair>
    ensures { result ≡ pair_named word.now }
{
    match word.parse::<Pair>() {
        Ok(pair) => Some(pair),
        Err(_) => None,
    }
}

/// The pair whose text the value is.
pub fn pair_said(value: &Value) -> Option<Pair>
    ensures { result ≡ pair_said (Some (view value.now)) }
{
    match value.as_str() {
        Some(word) => pair_named(word),
        None => None,
    }
}

/// The pair in the member `pair`.
pub fn read_pair(value: &Value) -> Option<Pair>
    ensures { result ≡ pair.value (get pair.name (view value.now)) }
{
    match value.get("pair") {
        Some(member) => pair_said(member),
        None => None,
    }
}

/// The pair in the member `absent`, where there is one.
pub fn read_absent(value: &Value) -> Option<Option<Pair>>
    ensures { result ≡ absent.value (get absent.name (view value.now)) }
{
    match value.get("absent") {
        None => Some(None),
        Some(member) => match pair_said(member) {
            Some(pair) => Some(Some(pair)),
            None => None,
        },
    }
}

/// The place in the member `place`.
pub fn read_place(value: &Value) -> Option<Place>
    ensures { result ≡ place.value (get place.name (view value.now)) }
{
    match text_at(value, "place") {
        Some(word) => place_named(word),
        None => None,
    }
}
