//! Whether a value is a filter that isn't too large, before any memory is taken for it.

ghost use Rattle.std.specs.Prelude.{◌≡◌, ◌≤◌, option_and_then};
ghost use Rattle.serde_json.specs.View.{view, items_view};
ghost use Rattle.query_filter.specs.Limits.{left_after, left_after_all};
ghost use Rattle.json_fields.specs.Filter.{formula_of, formula_called, formulas_in, formulas_of};
ghost use Rattle.json_fields.specs.FilterReading.{left_after_list};

use crate::atom::atom_called;
use crate::sole_member::sole_member;
use query_filter::Filter;
use serde_json::Value;

// How many atoms may still follow the formula that a value is, where so many might stand. The value is looked at no
// deeper than a filter may go.
#[cycle(checking)]
pub(crate) fn atoms_left(value: &Value, depth: u8, atoms: u8) -> Option<u8>
    ensures { result ≡ option_and_then (left_after depth atoms) (formula_of (view value.now)) }
{
    if depth == 0 {
        return None;
    }
    match sole_member(value) {
        Some((name, member)) => atoms_left_of_member(name, member, depth, atoms),
        None => None,
    }
}

#[cycle(checking)]
fn atoms_left_of_member(name: &str, value: &Value, depth: u8, atoms: u8) -> Option<u8>
    requires { 1 ≤ depth }
    ensures { result ≡ option_and_then (left_after depth atoms) (formula_called name.now (view value.now)) }
{
    match name {
        "and" => atoms_left_of_list(value, depth - 1, atoms),
        "or" => atoms_left_of_list(value, depth - 1, atoms),
        "not" => atoms_left(value, depth - 1, atoms),
        _ => match atom_called(name, value) {
            Some(_) => atoms.checked_sub(1),
            None => None,
        },
    }
}

#[cycle(checking)]
fn atoms_left_of_list(value: &Value, depth: u8, atoms: u8) -> Option<u8>
    ensures { result ≡ option_and_then (left_after_list depth atoms) (formulas_in (view value.now)) }
{
    match value.as_array() {
        Some(list) => atoms_left_of_items(list.as_slice(), depth, atoms),
        None => None,
    }
}

#[cycle(checking)]
fn atoms_left_of_items(list: &[Value], depth: u8, atoms: u8) -> Option<u8>
    ensures { result ≡ option_and_then (left_after_list depth atoms) (formulas_of (items_view list.now)) }
{
    if 1 <= list.len() && list.len() <= Filter::MOST_MEMBERS {
        atoms_left_of_all(list, depth, atoms)
    } else {
        None
    }
}

#[cycle(checking)]
fn atoms_left_of_all(list: &[Value], depth: u8, atoms: u8) -> Option<u8>
    ensures { result ≡ option_and_then (left_after_all depth atoms) (formulas_of (items_view list.now)) }
{
    let mut left = atoms;
    for value in list {
        left = atoms_left(value, depth, left)?;
    }
    Some(left)
}
