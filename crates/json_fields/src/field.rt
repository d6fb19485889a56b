//! The members of a JSON object, by their names.

ghost use Rattle.std.specs.Prelude.{◌≡◌, Some, map, option_map};
ghost use Rattle.std.specs.List.{list_any};
ghost use Rattle.std.specs.Str.{bytes_eq};
ghost use Rattle.serde_json.specs.Find.{get};
ghost use Rattle.serde_json.specs.View.{view, members_view};
ghost use Rattle.json_fields.specs.Form.{names_are, has_only, if_there};
ghost use Rattle.json_fields.specs.Field.{text_at, number, small, numbered, at_most, called};

use serde_json::{Map, Value};
use user_names::Name;

/// Whether the value is an object and each of its members is listed.
pub fn has_only(value: &Value, listed: &[&str]) -> bool
    ensures { result ≡ has_only (map (λ name. name.now) listed.now) (view value.now) }
{
    match value.as_object() {
        Some(members) => names_are(members, listed),
        None => false,
    }
}

fn names_are(members: &Map<String, Value>, listed: &[&str]) -> bool
    ensures { result ≡ names_are (map (λ name. name.now) listed.now) (members_view members.now.entries) }
{
    for (name, _) in members.iter() {
        if !is_listed(listed, name.as_str()) {
            return false;
        }
    }
    true
}

fn is_listed(listed: &[&str], name: &str) -> bool
    ensures { result ≡ list_any (λ other. bytes_eq other name.now) (map (λ other. other.now) listed.now) }
{
    for other in listed {
        if *other == name {
            return true;
        }
    }
    false
}

/// The text in the member of this name.
pub fn text_at<'v>(value: &'v Value, name: &str) -> Option<&'v str>
    ensures { option_map (λ text. text.now) result ≡ text_at name.now (view value.now) }
{
    match value.get(name) {
        Some(member) => member.as_str(),
        None => None,
    }
}

/// The whole number in the member of this name.
pub fn whole_at(value: &Value, name: &str) -> Option<u64>
    ensures { result ≡ number (get name.now (view value.now)) }
{
    match value.get(name) {
        Some(member) => member.as_u64(),
        None => None,
    }
}

/// The number up to 255 that the value is.
pub fn small_number(value: &Value) -> Option<u8>
    ensures { result ≡ small (Some (view value.now)) }
{
    match value.as_u64() {
        Some(number) if number < 256 => Some(number as u8),
        _ => None,
    }
}

/// The number up to 255 in the member of this name.
pub fn small_number_at(value: &Value, name: &str) -> Option<u8>
    ensures { result ≡ small (get name.now (view value.now)) }
{
    match value.get(name) {
        Some(member) => small_number(member),
        None => None,
    }
}

/// The number up to 255 in the member of this name, where there is one.
pub fn small_number_if_there(value: &Value, name: &str) -> Option<Option<u8>>
    ensures { result ≡ (if_there (numbered name.now)).value (get name.now (view value.now)) }
{
    match value.get(name) {
        None => Some(None),
        Some(member) => match small_number(member) {
            Some(number) => Some(Some(number)),
            None => None,
        },
    }
}

/// The number up to a limit in the member of this name.
pub fn limited_at(value: &Value, name: &str, most: u64) -> Option<u64>
    ensures { result ≡ at_most most (number (get name.now (view value.now))) }
{
    match whole_at(value, name) {
        Some(number) if number <= most => Some(number),
        _ => None,
    }
}

/// The name in the member that is called so.
pub fn name_at(value: &Value, name: &str) -> Option<Name>
    ensures { result ≡ (called name.now).value (get name.now (view value.now)) }
{
    match text_at(value, name) {
        Some(text) => Name::new(text).ok(),
        None => None,
    }
}
