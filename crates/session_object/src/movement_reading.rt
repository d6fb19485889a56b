//! The movement that a session object asks for, by its members.

ghost use Rattle.std.specs.Prelude.{◌≡◌, Some, IfOk, IfErr};
ghost use Rattle.serde_json.specs.Find.{get};
ghost use Rattle.serde_json.specs.View.{view, items_view};
ghost use Rattle.json_fields.specs.Form.{each};
ghost use Rattle.session_object.specs.AskedMovement.{row_of_items, row_said, rows_said, movement_said, asked_movement};
ghost use Rattle.session_object.specs.AskedMovement.{word_named, shared_by, switched_rounds, is_switched, stands_beside};
ghost use Rattle.session_object.specs.Reading.{GivesPart, FailsPart};

use crate::asked_movement::AskedMovement;
use crate::session_fault::SessionFault;
use json_fields::{pair_said, small_number, small_number_if_there};
use movement::{Movement, Row};
use named_movements::MovementWord;
use serde_json::Value;
use std::alloc::Global;
use table_terms::Items;

/// How many rows a list has at most: one for each of 16 tables at each of 31 sets.
pub(crate) const LONGEST_LIST: usize = 496;

fn row_in(list: &[Value]) -> Option<Row>
    ensures { result ≡ row_of_items (items_view list.now) }
{
    match list {
        [round, table, set, north_south, east_west] => Some(Row {
            round: small_number(round)?,
            table: small_number(table)?,
            set: small_number(set)?,
            north_south: pair_said(north_south)?,
            east_west: pair_said(east_west)?,
        }),
        _ => None,
    }
}

#[tactic(auto, unfolding(crate::specs::AskedMovement::row_said))]
fn row_said(value: &Value) -> Option<Row>
    ensures { result ≡ row_said (view value.now) }
{
    match value.as_array() {
        Some(list) => row_in(list.as_slice()),
        None => None,
    }
}

fn each_row(alloc: Global, list: &[Value]) -> Result<Items<Row>, SessionFault>
    ensures rows { IfOk result (λ rows. each row_said (items_view list.now) ≡ Some rows) }
    ensures fault { IfErr result (λ fault. FailsPart fault (each row_said (items_view list.now))) }
{
    let mut rows = Vec::new(alloc);
    for value in list {
        let Some(row) = row_said(value) else {
            return Err(SessionFault::BadField);
        };
        rows.push(row)?;
    }
    Ok(Items::new(rows))
}

#[tactic(auto, using(json_fields::proofs::ListLemmas::item_count_of), unfolding(crate::specs::AskedMovement::rows_said))]
fn rows_said(alloc: Global, list: &[Value]) -> Result<Items<Row>, SessionFault>
    ensures { GivesPart result (rows_said (items_view list.now)) }
{
    if list.is_empty() || list.len() > LONGEST_LIST {
        return Err(SessionFault::BadField);
    }
    each_row(alloc, list)
}

fn word_named(text: &str) -> Option<MovementWord>
    ensures { result ≡ word_named text.now }
{
    match MovementWord::of_text(text) {
        Some(word) => Some(word),
        None => None,
    }
}

fn movement_said(alloc: Global, value: &Value) -> Result<AskedMovement, SessionFault>
    ensures { GivesPart result (movement_said (Some (view value.now))) }
{
    if let Some(text) = value.as_str() {
        return match word_named(text) {
            Some(word) => Ok(AskedMovement::Word(word)),
            None => Err(SessionFault::BadField),
        };
    }
    match value.as_array() {
        Some(list) => match rows_said(alloc, list.as_slice()) {
            Ok(rows) => Ok(AskedMovement::Rows(rows)),
            Err(fault) => Err(fault),
        },
        None => Err(SessionFault::BadField),
    }
}

/// What the member `movement` asks for.
pub(crate) fn read_asked_movement(
    alloc: Global,
    value: &Value,
) -> Result<AskedMovement, SessionFault>
    ensures { GivesPart result (asked_movement.value (get asked_movement.name (view value.now))) }
{
    match value.get("movement") {
        Some(member) => movement_said(alloc, member),
        None => Ok(AskedMovement::Nothing),
    }
}

/// By how many tables a set may be played in a round, where that is said.
pub(crate) fn read_shared_by(value: &Value) -> Option<Option<u8>>
    ensures { result ≡ shared_by.value (get shared_by.name (view value.now)) }
{
    small_number_if_there(value, "shared_by")
}

/// In how many of the last rounds the pairs sit the other way round, where that is said.
pub(crate) fn read_switched(value: &Value) -> Option<Option<u8>>
    ensures { result ≡ switched_rounds.value (get switched_rounds.name (view value.now)) }
{
    small_number_if_there(value, "switched")
}

/// Whether what stands beside the movement that is asked for may stand there.
pub(crate) fn stands_beside(
    asked: &AskedMovement,
    rounds: u8,
    shared_by: Option<u8>,
    switched: Option<u8>,
) -> bool
    ensures { result ≡ stands_beside asked.now rounds shared_by switched }
{
    match asked {
        AskedMovement::Nothing => shared_by.is_none() && switched.is_none(),
        AskedMovement::Word(word) => shared_by.is_none() && is_switched(*word, rounds, switched),
        AskedMovement::Rows(_) => {
            let tables = shared_by.unwrap_or(1);
            1 <= tables && tables <= Movement::MOST_TABLES && switched.is_none()
        }
    }
}

/// Whether so many rounds of a movement may be switched, where that is said.
fn is_switched(word: MovementWord, rounds: u8, switched: Option<u8>) -> bool
    ensures { result ≡ is_switched word rounds switched }
{
    match word {
        MovementWord::Howell => switched.is_none(),
        MovementWord::Mitchell | MovementWord::ShareAndRelay | MovementWord::Web => {
            switched.unwrap_or(0) <= rounds
        }
    }
}
