//! The commands, each by the members that it has.

ghost use Rattle.std.specs.Prelude.{◌≡◌, ◌∷◌, [], true, IfOk};
ghost use Rattle.user_names.specs.ShownName.{is_shown_or_none};
ghost use Rattle.serde_json.specs.Data.{string};
ghost use Rattle.serde_json.specs.View.{view};
ghost use Rattle.json_fields.specs.Written.{HasMembers};
ghost use Rattle.session_commands.specs.declared.command.Command.TheVariants as command;
ghost use Rattle.session_roles.specs.Role.{role_name};
ghost use Rattle.command_writing.specs.Values.{IsName};
ghost use Rattle.command_writing.specs.CommandPart.{◌says◌};
ghost use Rattle.command_writing.specs.CommandPart as kinds;
ghost use Rattle.command_writing.specs.CommandData.{parts_data, command_data};
ghost use Rattle.command_writing.specs.Writable.{IsWritable};

use crate::found::{analysed_value, solved_value};
use crate::play::play_value;
use crate::result::outcome_value;
use cards::Play;
use hex::encode;
use json_fields::{ObjectWriter, string_value};
use movement::Cell;
use scoring::Outcome;
use serde_json::Value;
use session_commands::Command;
use session_roles::Role;
use std::alloc::{AllocError, Global};
use table_terms::{Pair, Place};
use user_names::{Digest, Name, ShownName};

/// A command as an object.
pub fn command_value(alloc: Global, command: &Command) -> Result<Value, AllocError>
    ensures value { IfOk result (λ value. view value ≡ command_data command.now) }
    ensures writable { IsWritable command.now }
{
    match command {
        Command::Enter {
            cell,
            outcome,
            play,
        } => told(alloc, "Enter", *cell, *outcome, play),
        Command::Confirm { cell, outcome } => confirmed(alloc, *cell, *outcome),
        Command::Correct {
            cell,
            outcome,
            play,
        } => told(alloc, "Correct", *cell, *outcome, play),
        Command::Rule {
            cell,
            north_south,
            east_west,
            reason,
        } => ruled(alloc, *cell, *north_south, *east_west, *reason),
        Command::Void { cell } => at_cell(alloc, "Void", *cell),
        Command::Hold { board } => at_board(alloc, "Hold", *board),
        Command::Release { board } => at_board(alloc, "Release", *board),
        Command::Seat { name, pair, place } => seated(alloc, name, *pair, *place),
        Command::Unseat { name } => unseated(alloc, name),
        Command::NextRound => alone(alloc, "NextRound"),
        Command::Close => alone(alloc, "Close"),
        Command::Finalise => alone(alloc, "Finalise"),
        Command::AddUser { name, digest } => added(alloc, name, *digest),
        Command::Assign { name, role } => assigned(alloc, "Assign", name, *role),
        Command::Deassign { name, role } => assigned(alloc, "Deassign", name, *role),
        Command::AddInheritance { senior, junior } => {
            inherited(alloc, "AddInheritance", *senior, *junior)
        }
        Command::DeleteInheritance { senior, junior } => {
            inherited(alloc, "DeleteInheritance", *senior, *junior)
        }
        Command::Solved { board, table } => solved_value(alloc, *board, table),
        Command::Analysed { cell, costs } => analysed_value(alloc, *cell, costs),
        Command::Embargo => alone(alloc, "Embargo"),
        Command::Lift => alone(alloc, "Lift"),
        Command::Rename { name, shown } => renamed(alloc, name, shown),
    }
}

fn alone(alloc: Global, word: &str) -> Result<Value, AllocError>
    ensures { IfOk result (λ value. view value ≡ parts_data word.now []) }
{
    ObjectWriter::new(alloc)
        .member("cmd", Value::try_from_str(alloc, word))
        .object()
}

fn at_board(alloc: Global, word: &str, board: u8) -> Result<Value, AllocError>
    ensures writable { IsWritable (command.Hold board) }
    ensures value { IfOk result (λ value. view value ≡ parts_data word.now (kinds.Board says board ∷ [])) }
{
    ObjectWriter::new(alloc)
        .number("board", board)
        .member("cmd", Value::try_from_str(alloc, word))
        .object()
}

fn at_cell(alloc: Global, word: &str, cell: Cell) -> Result<Value, AllocError>
    ensures writable { IsWritable (command.Void cell) }
    ensures value { IfOk result (λ value.
        view value ≡ parts_data word.now (kinds.Table says cell.table ∷ kinds.Board says cell.board ∷ [])) }
{
    ObjectWriter::new(alloc)
        .number("board", cell.board)
        .member("cmd", Value::try_from_str(alloc, word))
        .number("table", cell.table)
        .object()
}

fn told(
    alloc: Global,
    word: &str,
    cell: Cell,
    outcome: Outcome,
    play: &Play,
) -> Result<Value, AllocError>
    ensures writable { IsWritable (command.Enter cell outcome play.now) }
    ensures value { IfOk result (λ value. view value ≡ parts_data word.now
        (kinds.Table says cell.table ∷ kinds.Board says cell.board ∷ kinds.Result says outcome ∷ kinds.Play says play.now ∷ [])) }
{
    ObjectWriter::new(alloc)
        .number("board", cell.board)
        .member("cmd", Value::try_from_str(alloc, word))
        .member("play", play_value(alloc, play))
        .member("result", outcome_value(alloc, outcome))
        .number("table", cell.table)
        .object()
}

fn confirmed(alloc: Global, cell: Cell, outcome: Outcome) -> Result<Value, AllocError>
    ensures writable { IsWritable (command.Confirm cell outcome) }
    ensures value { IfOk result (λ value. view value ≡ command_data (command.Confirm cell outcome)) }
{
    ObjectWriter::new(alloc)
        .number("board", cell.board)
        .member("cmd", Value::try_from_str(alloc, "Confirm"))
        .member("result", outcome_value(alloc, outcome))
        .number("table", cell.table)
        .object()
}

fn ruled(
    alloc: Global,
    cell: Cell,
    north_south: u8,
    east_west: u8,
    reason: u8,
) -> Result<Value, AllocError>
    ensures writable { IsWritable (command.Rule cell north_south east_west reason) }
    ensures value { IfOk result (λ value.
        view value ≡ command_data (command.Rule cell north_south east_west reason)) }
{
    ObjectWriter::new(alloc)
        .number("board", cell.board)
        .member("cmd", Value::try_from_str(alloc, "Rule"))
        .number("ew", east_west)
        .number("ns", north_south)
        .number("reason", reason)
        .number("table", cell.table)
        .object()
}

fn seated(alloc: Global, name: &Name, pair: Pair, place: Place) -> Result<Value, AllocError>
    ensures writable { IsWritable (command.Seat name.now pair place) }
    ensures value { IfOk result (λ value. view value ≡ command_data (command.Seat name.now pair place)) }
{
    ObjectWriter::new(alloc)
        .member("cmd", Value::try_from_str(alloc, "Seat"))
        .member("name", name_value(alloc, name))
        .member("pair", string_value(pair.to_string(alloc)))
        .member("place", string_value(place.to_string(alloc)))
        .object()
}

fn unseated(alloc: Global, name: &Name) -> Result<Value, AllocError>
    ensures writable { IsWritable (command.Unseat name.now) }
    ensures value { IfOk result (λ value. view value ≡ command_data (command.Unseat name.now)) }
{
    ObjectWriter::new(alloc)
        .member("cmd", Value::try_from_str(alloc, "Unseat"))
        .member("name", name_value(alloc, name))
        .object()
}

fn added(alloc: Global, name: &Name, digest: Digest) -> Result<Value, AllocError>
    ensures writable { IsWritable (command.AddUser name.now digest) }
    ensures value { IfOk result (λ value. view value ≡ command_data (command.AddUser name.now digest)) }
{
    ObjectWriter::new(alloc)
        .member("cmd", Value::try_from_str(alloc, "AddUser"))
        .member("digest", string_value(encode(alloc, &digest.bytes[..])))
        .member("name", name_value(alloc, name))
        .object()
}

fn assigned(alloc: Global, word: &str, name: &Name, role: Role) -> Result<Value, AllocError>
    ensures writable { IsWritable (command.Assign name.now role) }
    ensures value { IfOk result (λ value.
        view value ≡ parts_data word.now (kinds.Name says name.now ∷ kinds.Role says role ∷ [])) }
{
    ObjectWriter::new(alloc)
        .member("cmd", Value::try_from_str(alloc, word))
        .member("name", name_value(alloc, name))
        .member("role", role_value(alloc, role))
        .object()
}

fn renamed(alloc: Global, name: &Name, shown: &ShownName) -> Result<Value, AllocError>
    ensures writable { IsWritable (command.Rename name.now shown.now) }
    ensures value { IfOk result (λ value. view value ≡ command_data (command.Rename name.now shown.now)) }
{
    ObjectWriter::new(alloc)
        .member("cmd", Value::try_from_str(alloc, "Rename"))
        .member("name", name_value(alloc, name))
        .member("shown", shown_value(alloc, shown))
        .object()
}

fn inherited(alloc: Global, word: &str, senior: Role, junior: Role) -> Result<Value, AllocError>
    ensures { IfOk result (λ value. view value ≡ parts_data word.now (kinds.Senior says senior ∷ kinds.Junior says junior ∷ [])) }
{
    ObjectWriter::new(alloc)
        .member("cmd", Value::try_from_str(alloc, word))
        .member("junior", role_value(alloc, junior))
        .member("senior", role_value(alloc, senior))
        .object()
}

fn name_value(alloc: Global, name: &Name) -> Result<Value, AllocError>
    ensures short { IsName name.now }
    ensures value { IfOk result (λ value. view value ≡ string name.now) }
{
    Value::try_from_str(alloc, name.as_str())
}

fn shown_value(alloc: Global, shown: &ShownName) -> Result<Value, AllocError>
    ensures shown { is_shown_or_none shown.now ≡ true }
    ensures value { IfOk result (λ value. view value ≡ string shown.now) }
{
    Value::try_from_str(alloc, shown.as_str())
}

fn role_value(alloc: Global, role: Role) -> Result<Value, AllocError>
    ensures { IfOk result (λ value. view value ≡ string (role_name role)) }
{
    Value::try_from_str(alloc, role.name())
}
