//! A value that owns its text, made of one that borrows it.

ghost use Rattle.std.specs.Prelude.{◌≡◌, IfOk, option_map};
ghost use Rattle.json.specs.Value.{value_view, items_view as borrowed_items, members_view as borrowed_members};
ghost use Rattle.serde_json.specs.Data.{no_members};
ghost use Rattle.serde_json.specs.Read.{of_json, of_items, of_members};
ghost use Rattle.serde_json.specs.View.{view, items_view, members_view};

use crate::number::number_written;
use json::Value as Borrowed;
use serde_json::{Map, Value};
use std::alloc::{AllocError, Global};

/// The value, or none where a number in it is too large.
#[cycle(copying)]
pub(crate) fn copied(alloc: Global, value: &Borrowed<'_>) -> Result<Option<Value>, AllocError>
    ensures { IfOk result (λ copy. of_json (value_view value.now) ≡ option_map view copy) }
{
    match value {
        Borrowed::Null => Ok(Some(Value::Null)),
        Borrowed::Bool(is_true) => Ok(Some(Value::Bool(*is_true))),
        Borrowed::Number(text) => match number_written(text) {
            Some(number) => Ok(Some(Value::Number(number))),
            None => Ok(None),
        },
        Borrowed::String(text) => Ok(Some(Value::String(String::from_str(alloc, text)?))),
        Borrowed::Array(items) => match copied_items(alloc, items)? {
            Some(copies) => Ok(Some(Value::Array(copies))),
            None => Ok(None),
        },
        Borrowed::Object(members) => match copied_members(alloc, members)? {
            Some(copies) => Ok(Some(Value::Object(copies))),
            None => Ok(None),
        },
    }
}

#[cycle(copying)]
fn copied_items(alloc: Global, items: &Vec<Borrowed<'_>>) -> Result<Option<Vec<Value>>, AllocError>
    ensures { IfOk result (λ copy.
        of_items (borrowed_items items.now.items) ≡ option_map (λ copies. items_view copies.items) copy) }
{
    let mut copies = Vec::with_capacity(alloc, items.len())?;
    for item in items {
        let Some(copy) = copied(alloc, item)? else {
            return Ok(None);
        };
        copies.push(copy)?;
    }
    Ok(Some(copies))
}

#[cycle(copying)]
fn copied_members(
    alloc: Global,
    members: &Vec<(&str, Borrowed<'_>)>,
) -> Result<Option<Map<String, Value>>, AllocError>
    ensures { IfOk result (λ copy. of_members (borrowed_members members.now.items) no_members
        ≡ option_map (λ copies. members_view copies.entries) copy) }
{
    let mut copies = Map::new(alloc);
    for member in members {
        let (name, value) = member;
        let key = String::from_str(alloc, name)?;
        let Some(copy) = copied(alloc, value)? else {
            return Ok(None);
        };
        drop(copies.insert(key, copy)?);
    }
    Ok(Some(copies))
}
