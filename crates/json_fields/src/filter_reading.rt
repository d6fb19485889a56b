//! The filter that a JSON value is.

ghost use Rattle.std.specs.Prelude.{◌≡◌, Some, IfOk, IfErr, option_and_then, ◌≤◌};
ghost use Rattle.serde_json.specs.View.{view, items_view};
ghost use Rattle.query_filter.specs.Formula.{formula, formulas};
ghost use Rattle.json_fields.specs.Filter.{formula_of, formula_called, formulas_in, formulas_of, filter_of};
ghost use Rattle.json_fields.specs.FilterReading.{ReadsFilter, FailsFilter, not_deeper, none_deeper};

use crate::atom::atom_called;
use crate::filter_checking::atoms_left;
use crate::filter_fault::FilterFault;
use crate::sole_member::sole_member;
use query_filter::{Condition, Filter};
use serde_json::Value;
use std::alloc::Global;

/// The filter that a message's value is.
pub fn read_filter(alloc: Global, value: &Value) -> Result<Filter, FilterFault>
    ensures { ReadsFilter result (filter_of (view value.now)) }
{
    if atoms_left(value, Filter::MOST_DEPTH, Filter::MOST_ATOMS).is_none() {
        return Err(FilterFault::BadField);
    }
    match condition_of(alloc, value, Filter::MOST_DEPTH) {
        Ok(condition) => Filter::new(condition).ok_or(FilterFault::BadField),
        Err(fault) => Err(fault),
    }
}

#[cycle(reading)]
fn condition_of(alloc: Global, value: &Value, depth: u8) -> Result<Condition, FilterFault>
    ensures ok { IfOk result (λ condition. formula_of (view value.now) ≡ Some (formula condition)) }
    ensures fault { IfErr result (λ fault. FailsFilter fault (option_and_then (not_deeper depth) (formula_of (view value.now)))) }
{
    if depth == 0 {
        return Err(FilterFault::BadField);
    }
    match sole_member(value) {
        Some((name, member)) => condition_called(alloc, name, member, depth),
        None => Err(FilterFault::BadField),
    }
}

#[cycle(reading)]
fn condition_called(
    alloc: Global,
    name: &str,
    value: &Value,
    depth: u8,
) -> Result<Condition, FilterFault>
    requires { 1 ≤ depth }
    ensures ok { IfOk result (λ condition. formula_called name.now (view value.now) ≡ Some (formula condition)) }
    ensures fault { IfErr result (λ fault. FailsFilter fault (option_and_then (not_deeper depth) (formula_called name.now (view value.now)))) }
{
    match name {
        "and" => Ok(Condition::And(conditions_in(alloc, value, depth - 1)?)),
        "or" => Ok(Condition::Or(conditions_in(alloc, value, depth - 1)?)),
        "not" => {
            let other = condition_of(alloc, value, depth - 1)?;
            Ok(Condition::Not(Box::new(alloc, other)?))
        }
        _ => match atom_called(name, value) {
            Some(atom) => Ok(Condition::Atom(atom)),
            None => Err(FilterFault::BadField),
        },
    }
}

#[cycle(reading)]
fn conditions_in(alloc: Global, value: &Value, depth: u8) -> Result<Vec<Condition>, FilterFault>
    ensures ok { IfOk result (λ members. formulas_in (view value.now) ≡ Some (formulas members.items)) }
    ensures fault { IfErr result (λ fault. FailsFilter fault (option_and_then (none_deeper depth) (formulas_in (view value.now)))) }
{
    match value.as_array() {
        Some(list) => conditions_of(alloc, list.as_slice(), depth),
        None => Err(FilterFault::BadField),
    }
}

#[cycle(reading)]
fn conditions_of(alloc: Global, list: &[Value], depth: u8) -> Result<Vec<Condition>, FilterFault>
    ensures ok { IfOk result (λ members. formulas_of (items_view list.now) ≡ Some (formulas members.items)) }
    ensures fault { IfErr result (λ fault. FailsFilter fault (option_and_then (none_deeper depth) (formulas_of (items_view list.now)))) }
{
    let mut members = Vec::new(alloc);
    for value in list {
        members.push(condition_of(alloc, value, depth)?)?;
    }
    Ok(members)
}
