//! What is written of an audit.

ghost use Rattle.std.specs.Prelude.{◌≡◌, map, IfOk, string_bytes};
ghost use Rattle.serde_json.specs.Data.{array};
ghost use Rattle.serde_json.specs.View.{view, items_of};
ghost use Rattle.wire.specs.AuditText.{actor_data, target_text, audit_row_data, audit_row_text, audit_data, audit_text, refusal_data, audit_refusal_text};

use json_fields::{ArrayWriter, ObjectWriter, array_value, string_value};
use serde_json::{Value, push};
use session_book::{AuditRow, AuditRows};
use session_commands::{Actor, Target};
use std::alloc::{AllocError, Global};

/// The text of an audit's rows, where the journal has this version.
pub fn audit_text(alloc: Global, rows: &AuditRows, version: usize) -> Result<String, AllocError>
    ensures { IfOk result (λ text. string_bytes text ≡ audit_text rows.now version) }
{
    let value = audit_value(alloc, rows, version)?;
    value.to_string(alloc)
}

/// The text of one row of an audit.
pub fn audit_row_text(alloc: Global, row: &AuditRow) -> Result<String, AllocError>
    ensures { IfOk result (λ text. string_bytes text ≡ audit_row_text row.now) }
{
    let value = row_value(alloc, row)?;
    value.to_string(alloc)
}

/// The text for a user who has no permission for the audit.
pub fn audit_refusal_text(alloc: Global) -> Result<String, AllocError>
    ensures { IfOk result (λ text. string_bytes text ≡ audit_refusal_text) }
{
    let value = refusal_value(alloc)?;
    value.to_string(alloc)
}

fn refusal_value(alloc: Global) -> Result<Value, AllocError>
    ensures { IfOk result (λ value. view value ≡ refusal_data) }
{
    ObjectWriter::new(alloc)
        .member("error", Value::try_from_str(alloc, "NotPermitted"))
        .object()
}

fn audit_value(alloc: Global, rows: &AuditRows, version: usize) -> Result<Value, AllocError>
    ensures { IfOk result (λ value. view value ≡ audit_data rows.now version) }
{
    ObjectWriter::new(alloc)
        .member("audit", rows_value(alloc, rows.as_slice()))
        .member("version", Ok(Value::from(version)))
        .object()
}

fn rows_value(alloc: Global, rows: &[AuditRow]) -> Result<Value, AllocError>
    ensures { IfOk result (λ value. view value ≡ array (items_of (map audit_row_data rows.now))) }
{
    let mut values = Vec::with_capacity(alloc, rows.len())?;
    for row in rows {
        let value = row_value(alloc, row)?;
        push(&mut values, value)?;
    }
    Ok(array_value(values))
}

fn row_value(alloc: Global, row: &AuditRow) -> Result<Value, AllocError>
    ensures { IfOk result (λ value. view value ≡ audit_row_data row.now) }
{
    ArrayWriter::new(alloc)
        .item(Ok(Value::from(row.number)))
        .item(actor_value(alloc, row.actor))
        .item(Value::try_from_str(alloc, row.word.text()))
        .item(string_value(target_text(alloc, &row.target)))
        .array()
}

// Who gave a command.
fn actor_value(alloc: Global, actor: Actor) -> Result<Value, AllocError>
    ensures { IfOk result (λ value. view value ≡ actor_data actor) }
{
    match actor {
        Actor::User(name) => Value::try_from_str(alloc, name.as_str()),
        Actor::Solver => Ok(Value::Null),
    }
}

// What a command is about.
fn target_text(alloc: Global, target: &Target) -> Result<String, AllocError>
    ensures { IfOk result (λ text. string_bytes text ≡ target_text target.now) }
{
    match target {
        Target::Session => Ok(String::new(alloc)),
        Target::Cell(cell) => {
            let (table, board) = (cell.table, cell.board);
            format!(in alloc; "{table}/{board}")
        }
        Target::Board(board) => board.to_string(alloc),
        Target::NewUser(name) | Target::User(name) => name.to_string(alloc),
        Target::Assignment { name, role } => format!(in alloc; "{name}:{role}"),
        Target::Inheritance { senior, junior } => format!(in alloc; "{senior}>{junior}"),
    }
}
