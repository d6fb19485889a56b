//! What is written of a session's status.

ghost use Rattle.std.specs.Prelude.{◌≡◌, IfOk, option_map, codes};
ghost use Rattle.serde_json.specs.Data.{Members, string};
ghost use Rattle.serde_json.specs.View.{view};
ghost use Rattle.table_terms.specs.Pair.{pair_text};
ghost use Rattle.movement.specs.Movement.{rows};
ghost use Rattle.json_fields.specs.Written.{HasMembers};
ghost use Rattle.reply_texts.specs.DataOf.{number_data, list_data};
ghost use Rattle.reply_texts.specs.StatusText.{phase_name, held_boards, live_tables, tables_data, live_data, mark_data};
ghost use Rattle.reply_texts.specs.StatusText.{marks_data, movement_row_data, seat_data, shown_data, some_list};
ghost use Rattle.reply_texts.specs.StatusText.{edition_data, embargo_data, movement_data, first_slots, board_slots, progress_slots, last_slots, status_data};
ghost use Rattle.reply_texts.specs.Slots.{put_slot, put_slots};

use crate::to_json::{ToJson, list_value};
use disclosure_rules::{Marks, Phase, Public};
use json_fields::{ArrayWriter, ObjectWriter, array_value, string_value};
use movement::{Cell, Movement, Row};
use notices::{NoticeText, Notices};
use serde_json::{Value, push};
use session_roles::Edition;
use session_state::{Seated, ShownUser};
use std::alloc::{AllocError, Global};
use table_terms::Pair;

pub(crate) fn status_value(
    alloc: Global,
    public: &Public,
    seats: &[Seated],
    names: &[ShownUser],
    notices: &Notices,
) -> Result<Value, AllocError>
    ensures { IfOk result (λ value. view value ≡ status_data public.now seats.now names.now notices.now) }
{
    let object = with_first_slots(ObjectWriter::new(alloc), alloc, public, notices);
    let object = with_board_slots(object, alloc, public, names);
    let object = with_progress_slots(object, alloc, public, notices);
    with_last_slots(object, alloc, public, seats, notices).object()
}

fn with_first_slots(
    object: ObjectWriter,
    alloc: Global,
    public: &Public,
    notices: &Notices,
) -> ObjectWriter
    ensures { (members : Members) → HasMembers object members →
        HasMembers result (put_slots (first_slots public.now notices.now) members) }
{
    let object = with_absent(object, alloc, public.movement.absent());
    let object = with_text(object, alloc, "date", notices.date);
    with_edition(object, public.edition, public.embargo)
}

fn with_board_slots(
    object: ObjectWriter,
    alloc: Global,
    public: &Public,
    names: &[ShownUser],
) -> ObjectWriter
    ensures { (members : Members) → HasMembers object members →
        HasMembers result (put_slots (board_slots public.now names.now) members) }
{
    let object = object
        .member("held", held_value(alloc, public))
        .member("live", live_value(alloc, public))
        .member("marks", marks_value(alloc, public));
    let object = with_movement(object, alloc, &public.movement);
    with_list(object, alloc, "names", names)
}

fn with_progress_slots(
    object: ObjectWriter,
    alloc: Global,
    public: &Public,
    notices: &Notices,
) -> ObjectWriter
    ensures { (members : Members) → HasMembers object members →
        HasMembers result (put_slots (progress_slots public.now notices.now) members) }
{
    let object = object.number("per_set", public.movement.per_set()).member(
        "phase",
        Value::try_from_str(alloc, phase_name(public.phase)),
    );
    with_list(object, alloc, "reasons", notices.reasons.as_slice())
        .number("round", public.round)
        .number("rounds", public.movement.rounds())
}

fn with_last_slots(
    object: ObjectWriter,
    alloc: Global,
    public: &Public,
    seats: &[Seated],
    notices: &Notices,
) -> ObjectWriter
    ensures { (members : Members) → HasMembers object members →
        HasMembers result (put_slots (last_slots public.now seats.now notices.now) members) }
{
    let object = object
        .member("seats", list_value(alloc, seats))
        .number("tables", public.movement.tables());
    with_text(object, alloc, "title", notices.title)
}

// The pair that is absent, where one is.
fn with_absent(object: ObjectWriter, alloc: Global, absent: Option<Pair>) -> ObjectWriter
    ensures { (members : Members) → HasMembers object members →
        HasMembers result (put_slot (codes "absent") (option_map (λ pair. string (pair_text pair)) absent) members) }
{
    match absent {
        None => object,
        Some(pair) => object.member("absent", string_value(pair.to_string(alloc))),
    }
}

// A text, where it is said.
fn with_text(
    object: ObjectWriter,
    alloc: Global,
    name: &str,
    said: Option<NoticeText>,
) -> ObjectWriter
    ensures { (members : Members) → HasMembers object members →
        HasMembers result (put_slot name.now (option_map (λ text. string text) said) members) }
{
    match said {
        None => object,
        Some(text) => object.member(name, Value::try_from_str(alloc, text.as_str())),
    }
}

// The second edition of the policy, and whether there is an embargo.
fn with_edition(object: ObjectWriter, edition: Edition, embargo: bool) -> ObjectWriter
    ensures { (members : Members) → HasMembers object members →
        HasMembers result (put_slot (codes "embargo") (embargo_data edition embargo)
        (put_slot (codes "edition") (edition_data edition) members)) }
{
    match edition {
        Edition::First => object,
        Edition::Second => object
            .number("edition", 2)
            .member("embargo", Ok(Value::from(embargo))),
    }
}

// The rows of a movement that was named.
fn with_movement(object: ObjectWriter, alloc: Global, movement: &Movement) -> ObjectWriter
    ensures { (members : Members) → HasMembers object members →
        HasMembers result (put_slot (codes "movement") (movement_data movement.now.is_named (rows movement.now))
        members) }
{
    if movement.is_named() {
        object.member("movement", rows_value(alloc, movement))
    } else {
        object
    }
}

// A list, where it isn't empty.
fn with_list<T: ToJson>(
    object: ObjectWriter,
    alloc: Global,
    name: &str,
    items: &[T],
) -> ObjectWriter
    ensures { (members : Members) → HasMembers object members →
        HasMembers result (put_slot name.now (some_list T.json items.now) members) }
{
    if items.is_empty() {
        object
    } else {
        object.member(name, list_value(alloc, items))
    }
}

fn rows_value(alloc: Global, movement: &Movement) -> Result<Value, AllocError>
    ensures { IfOk result (λ value. view value ≡ list_data movement_row_data (rows movement.now)) }
{
    let rows = movement.rows(alloc)?;
    list_value(alloc, rows.as_slice())
}

fn held_value(alloc: Global, public: &Public) -> Result<Value, AllocError>
    ensures { IfOk result (λ value. view value ≡ list_data number_data (held_boards public.now)) }
{
    let boards = held_boards(alloc, public)?;
    list_value(alloc, boards.as_slice())
}

// The boards of the section that are held.
fn held_boards(alloc: Global, public: &Public) -> Result<Vec<u8>, AllocError>
    ensures { IfOk result (λ boards. boards.items ≡ held_boards public.now) }
{
    let mut boards = Vec::new(alloc);
    for before in 0..public.movement.boards() {
        if public.held.contains(before + 1) {
            boards.push(before + 1)?;
        }
    }
    Ok(boards)
}

// For each board of the section, the tables that have a result on it.
fn live_value(alloc: Global, public: &Public) -> Result<Value, AllocError>
    ensures { IfOk result (λ value. view value ≡ live_data public.now) }
{
    let mut values = Vec::new(alloc);
    for before in 0..public.movement.boards() {
        let value = tables_value(alloc, public, before + 1)?;
        push(&mut values, value)?;
    }
    Ok(array_value(values))
}

fn tables_value(alloc: Global, public: &Public, board: u8) -> Result<Value, AllocError>
    ensures { IfOk result (λ value. view value ≡ tables_data public.now board) }
{
    let tables = live_tables(alloc, public, board)?;
    list_value(alloc, tables.as_slice())
}

// The tables of the section that have a result on the board.
fn live_tables(alloc: Global, public: &Public, board: u8) -> Result<Vec<u8>, AllocError>
    ensures { IfOk result (λ tables. tables.items ≡ live_tables public.now board) }
{
    let mut tables = Vec::new(alloc);
    for before in 0..public.movement.tables() {
        let table = before + 1;
        if public.live.contains(Cell { table, board }) {
            tables.push(table)?;
        }
    }
    Ok(tables)
}

// The marks of each board of the section.
fn marks_value(alloc: Global, public: &Public) -> Result<Value, AllocError>
    ensures { IfOk result (λ value. view value ≡ marks_data public.now) }
{
    let boards = public.movement.boards();
    list_value(alloc, &public.marks[..usize::from(boards)])
}

impl ToJson for Marks {
    ghost json = { mark_data };

    fn to_json(&self, alloc: Global) -> Result<Value, AllocError> {
        let text = format!(in alloc; "{} {}", self.dealer, self.vulnerability)?;
        Ok(Value::String(text))
    }
}

impl ToJson for Row {
    ghost json = { movement_row_data };

    fn to_json(&self, alloc: Global) -> Result<Value, AllocError> {
        ArrayWriter::new(alloc)
            .item(Ok(Value::from(self.round)))
            .item(Ok(Value::from(self.table)))
            .item(Ok(Value::from(self.set)))
            .item(string_value(self.north_south.to_string(alloc)))
            .item(string_value(self.east_west.to_string(alloc)))
            .array()
    }
}

impl ToJson for Seated {
    ghost json = { seat_data };

    fn to_json(&self, alloc: Global) -> Result<Value, AllocError> {
        ArrayWriter::new(alloc)
            .item(Value::try_from_str(alloc, self.name.as_str()))
            .item(string_value(self.seat.pair.to_string(alloc)))
            .item(string_value(self.seat.place.to_string(alloc)))
            .array()
    }
}

impl ToJson for ShownUser {
    ghost json = { shown_data };

    fn to_json(&self, alloc: Global) -> Result<Value, AllocError> {
        ArrayWriter::new(alloc)
            .item(Value::try_from_str(alloc, self.name.as_str()))
            .item(Value::try_from_str(alloc, self.shown.as_str()))
            .array()
    }
}

impl ToJson for NoticeText {
    ghost json = { λ text. string text };

    fn to_json(&self, alloc: Global) -> Result<Value, AllocError> {
        Value::try_from_str(alloc, self.as_str())
    }
}

fn phase_name(phase: Phase) -> &'static str
    ensures { result.now ≡ phase_name phase }
{
    match phase {
        Phase::Running => "Running",
        Phase::Closed => "Closed",
        Phase::Final => "Final",
    }
}
