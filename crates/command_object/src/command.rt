//! The commands of a batch.

ghost use Rattle.std.specs.Prelude.{◌≡◌, Some, [], ◌∷◌, ◌++◌, codes, take, drop, IfOk, IfErr};
ghost use Rattle.serde_json.specs.Find.{get};
ghost use Rattle.serde_json.specs.View.{view, items_view};
ghost use Rattle.json_fields.specs.Reading.{wanted, Fails, Gives};
ghost use Rattle.json_fields.specs.Form.{by_word, is_word_of};
ghost use Rattle.json_fields.specs.User.{user_name};
ghost use Rattle.session_roles.specs.declared.edition.Edition.TheVariants.{First, Second};
ghost use Rattle.command_object.specs.Command.{added_commands, commands, north_south, east_west, reason, role_called, role, senior, junior, is_unknown, has_unknown, command_called, command_of, commands_in};

use crate::commands::Commands;
use crate::play::read_play;
use crate::result::outcome_at;
use json_fields::{
    RequestFault, has_only, is_one_of, name_at, read_board, read_digest, read_new_shown, read_pair,
    read_place, read_table, role_named, small_number_at, text_at,
};
use movement::Cell;
use scoring::Outcome;
use serde_json::Value;
use session_commands::Command;
use session_roles::{Edition, Role};
use std::alloc::Global;
use user_names::Name;

// Whether a command is called so.
fn is_command_word(word: &str, edition: Edition) -> bool
    ensures { result ≡ is_word_of (commands edition) word.now }
{
    is_one_of(
        word,
        &[
            "Enter",
            "Confirm",
            "Correct",
            "Rule",
            "Void",
            "Hold",
            "Release",
            "Seat",
            "Unseat",
            "NextRound",
            "Close",
            "Finalise",
            "AddUser",
            "Assign",
            "Deassign",
            "AddInheritance",
            "DeleteInheritance",
        ],
    ) || is_added_word(word, edition)
}

// Whether a command is called so that the first edition doesn't have.
fn is_added_word(word: &str, edition: Edition) -> bool
    ensures { result ≡ is_word_of (added_commands edition) word.now }
{
    match edition {
        Edition::First => false,
        Edition::Second => is_one_of(word, &["Embargo", "Lift", "Rename"]),
    }
}

#[tactic(auto, unfolding(crate::specs::Command::is_unknown))]
fn is_unknown(value: &Value, edition: Edition) -> bool
    ensures { result ≡ is_unknown edition (view value.now) }
{
    match text_at(value, "cmd") {
        Some(word) => !is_command_word(word, edition),
        None => false,
    }
}

/// Whether a word in the list names no command of an edition.
pub fn has_unknown(list: &[Value], edition: Edition) -> bool
    ensures { result ≡ has_unknown edition (items_view list.now) }
{
    for value in list {
        if is_unknown(value, edition) {
            return true;
        }
    }
    false
}

// The members of commands alone, each by its name.
fn user_name_of(value: &Value) -> Option<Name>
    ensures { result ≡ user_name.value (get user_name.name (view value.now)) }
{
    name_at(value, "name")
}

fn role_at(value: &Value, name: &str, edition: Edition) -> Option<Role>
    ensures { result ≡ (role_called edition name.now).value (get name.now (view value.now)) }
{
    role_named(text_at(value, name)?, edition)
}

fn role_of(value: &Value, edition: Edition) -> Option<Role>
    ensures { result ≡ (role edition).value (get (role edition).name (view value.now)) }
{
    role_at(value, "role", edition)
}

fn senior_of(value: &Value, edition: Edition) -> Option<Role>
    ensures { result ≡ (senior edition).value (get (senior edition).name (view value.now)) }
{
    role_at(value, "senior", edition)
}

fn junior_of(value: &Value, edition: Edition) -> Option<Role>
    ensures { result ≡ (junior edition).value (get (junior edition).name (view value.now)) }
{
    role_at(value, "junior", edition)
}

fn north_south_of(value: &Value) -> Option<u8>
    ensures { result ≡ north_south.value (get north_south.name (view value.now)) }
{
    small_number_at(value, "ns")
}

fn east_west_of(value: &Value) -> Option<u8>
    ensures { result ≡ east_west.value (get east_west.name (view value.now)) }
{
    small_number_at(value, "ew")
}

fn reason_of(value: &Value) -> Option<u8>
    ensures { result ≡ reason.value (get reason.name (view value.now)) }
{
    small_number_at(value, "reason")
}

fn enter_of(alloc: Global, value: &Value) -> Result<Command, RequestFault>
    ensures { Gives result (wanted (command_called First (codes "Enter") (view value.now))) }
{
    if !has_only(value, &["cmd", "table", "board", "result", "play"]) {
        return Err(RequestFault::BadField);
    }
    let Some(table) = read_table(value) else {
        return Err(RequestFault::BadField);
    };
    let Some(board) = read_board(value) else {
        return Err(RequestFault::BadField);
    };
    let Some(outcome) = outcome_at(value) else {
        return Err(RequestFault::BadField);
    };
    let play = read_play(alloc, value)?;
    Ok(Command::Enter {
        cell: Cell { table, board },
        outcome,
        play,
    })
}

fn confirm_of(value: &Value) -> Option<Command>
    ensures { result ≡ command_called First (codes "Confirm") (view value.now) }
{
    if !has_only(value, &["cmd", "table", "board", "result"]) {
        return None;
    }
    let table = read_table(value)?;
    let board = read_board(value)?;
    let outcome = outcome_at(value)?;
    Some(Command::Confirm {
        cell: Cell { table, board },
        outcome,
    })
}

fn correct_of(alloc: Global, value: &Value) -> Result<Command, RequestFault>
    ensures { Gives result (wanted (command_called First (codes "Correct") (view value.now))) }
{
    if !has_only(value, &["cmd", "table", "board", "result", "play"]) {
        return Err(RequestFault::BadField);
    }
    let Some(table) = read_table(value) else {
        return Err(RequestFault::BadField);
    };
    let Some(board) = read_board(value) else {
        return Err(RequestFault::BadField);
    };
    let Some(outcome) = outcome_at(value) else {
        return Err(RequestFault::BadField);
    };
    let play = read_play(alloc, value)?;
    Ok(Command::Correct {
        cell: Cell { table, board },
        outcome,
        play,
    })
}

fn rule_of(value: &Value) -> Option<Command>
    ensures { result ≡ command_called First (codes "Rule") (view value.now) }
{
    if !has_only(value, &["cmd", "table", "board", "ns", "ew", "reason"]) {
        return None;
    }
    let table = read_table(value)?;
    let board = read_board(value)?;
    let north_south = north_south_of(value)?;
    let east_west = east_west_of(value)?;
    let reason = reason_of(value)?;
    Some(Command::Rule {
        cell: Cell { table, board },
        north_south,
        east_west,
        reason,
    })
}

fn void_of(value: &Value) -> Option<Command>
    ensures { result ≡ command_called First (codes "Void") (view value.now) }
{
    if !has_only(value, &["cmd", "table", "board"]) {
        return None;
    }
    let table = read_table(value)?;
    let board = read_board(value)?;
    Some(Command::Void {
        cell: Cell { table, board },
    })
}

fn hold_of(value: &Value) -> Option<Command>
    ensures { result ≡ command_called First (codes "Hold") (view value.now) }
{
    if !has_only(value, &["cmd", "board"]) {
        return None;
    }
    let board = read_board(value)?;
    Some(Command::Hold { board })
}

fn release_of(value: &Value) -> Option<Command>
    ensures { result ≡ command_called First (codes "Release") (view value.now) }
{
    if !has_only(value, &["cmd", "board"]) {
        return None;
    }
    let board = read_board(value)?;
    Some(Command::Release { board })
}

fn seat_of(value: &Value) -> Option<Command>
    ensures { result ≡ command_called First (codes "Seat") (view value.now) }
{
    if !has_only(value, &["cmd", "name", "pair", "place"]) {
        return None;
    }
    let name = user_name_of(value)?;
    let pair = read_pair(value)?;
    let place = read_place(value)?;
    Some(Command::Seat { name, pair, place })
}

fn unseat_of(value: &Value) -> Option<Command>
    ensures { result ≡ command_called First (codes "Unseat") (view value.now) }
{
    if !has_only(value, &["cmd", "name"]) {
        return None;
    }
    let name = user_name_of(value)?;
    Some(Command::Unseat { name })
}

fn next_round_of(value: &Value) -> Option<Command>
    ensures { result ≡ command_called First (codes "NextRound") (view value.now) }
{
    if !has_only(value, &["cmd"]) {
        return None;
    }
    Some(Command::NextRound)
}

fn close_of(value: &Value) -> Option<Command>
    ensures { result ≡ command_called First (codes "Close") (view value.now) }
{
    if !has_only(value, &["cmd"]) {
        return None;
    }
    Some(Command::Close)
}

fn finalise_of(value: &Value) -> Option<Command>
    ensures { result ≡ command_called First (codes "Finalise") (view value.now) }
{
    if !has_only(value, &["cmd"]) {
        return None;
    }
    Some(Command::Finalise)
}

fn add_user_of(value: &Value) -> Option<Command>
    ensures { result ≡ command_called First (codes "AddUser") (view value.now) }
{
    if !has_only(value, &["cmd", "name", "digest"]) {
        return None;
    }
    let name = user_name_of(value)?;
    let digest = read_digest(value)?;
    Some(Command::AddUser { name, digest })
}

fn assign_of(value: &Value, edition: Edition) -> Option<Command>
    ensures { result ≡ command_called edition (codes "Assign") (view value.now) }
{
    if !has_only(value, &["cmd", "name", "role"]) {
        return None;
    }
    let name = user_name_of(value)?;
    let role = role_of(value, edition)?;
    Some(Command::Assign { name, role })
}

fn deassign_of(value: &Value, edition: Edition) -> Option<Command>
    ensures { result ≡ command_called edition (codes "Deassign") (view value.now) }
{
    if !has_only(value, &["cmd", "name", "role"]) {
        return None;
    }
    let name = user_name_of(value)?;
    let role = role_of(value, edition)?;
    Some(Command::Deassign { name, role })
}

fn add_inheritance_of(value: &Value, edition: Edition) -> Option<Command>
    ensures { result ≡ command_called edition (codes "AddInheritance") (view value.now) }
{
    if !has_only(value, &["cmd", "senior", "junior"]) {
        return None;
    }
    let senior = senior_of(value, edition)?;
    let junior = junior_of(value, edition)?;
    Some(Command::AddInheritance { senior, junior })
}

fn delete_inheritance_of(value: &Value, edition: Edition) -> Option<Command>
    ensures { result ≡ command_called edition (codes "DeleteInheritance") (view value.now) }
{
    if !has_only(value, &["cmd", "senior", "junior"]) {
        return None;
    }
    let senior = senior_of(value, edition)?;
    let junior = junior_of(value, edition)?;
    Some(Command::DeleteInheritance { senior, junior })
}

fn embargo_of(value: &Value) -> Option<Command>
    ensures { result ≡ command_called Second (codes "Embargo") (view value.now) }
{
    if !has_only(value, &["cmd"]) {
        return None;
    }
    Some(Command::Embargo)
}

fn lift_of(value: &Value) -> Option<Command>
    ensures { result ≡ command_called Second (codes "Lift") (view value.now) }
{
    if !has_only(value, &["cmd"]) {
        return None;
    }
    Some(Command::Lift)
}

fn rename_of(value: &Value) -> Option<Command>
    ensures { result ≡ command_called Second (codes "Rename") (view value.now) }
{
    if !has_only(value, &["cmd", "name", "shown"]) {
        return None;
    }
    let name = user_name_of(value)?;
    let shown = read_new_shown(value)?;
    Some(Command::Rename { name, shown })
}

// The command of a word. Memory is taken for a play alone.
fn command_called(
    alloc: Global,
    word: &str,
    value: &Value,
    edition: Edition,
) -> Result<Command, RequestFault>
    ensures { Gives result (wanted (command_called edition word.now (view value.now))) }
{
    match word {
        "Enter" => enter_of(alloc, value),
        "Correct" => correct_of(alloc, value),
        _ => match board_command(word, value, edition) {
            Some(command) => Ok(command),
            None => Err(RequestFault::BadField),
        },
    }
}

// The others, in the order of the table: what is done at a board first.
fn board_command(word: &str, value: &Value, edition: Edition) -> Option<Command>
    ensures { result ≡ by_word (codes "cmd" ∷ []) (take 1 (drop 1 (commands edition)) ++ drop 3 (commands edition))
        word.now (view value.now) }
{
    match word {
        "Confirm" => confirm_of(value),
        "Rule" => rule_of(value),
        "Void" => void_of(value),
        "Hold" => hold_of(value),
        "Release" => release_of(value),
        _ => round_command(word, value, edition),
    }
}

// Then who sits where, and the rounds.
fn round_command(word: &str, value: &Value, edition: Edition) -> Option<Command>
    ensures { result ≡ by_word (codes "cmd" ∷ []) (drop 7 (commands edition)) word.now (view value.now) }
{
    match word {
        "Seat" => seat_of(value),
        "Unseat" => unseat_of(value),
        "NextRound" => next_round_of(value),
        "Close" => close_of(value),
        "Finalise" => finalise_of(value),
        _ => user_command(word, value, edition),
    }
}

// Then users and their roles.
fn user_command(word: &str, value: &Value, edition: Edition) -> Option<Command>
    ensures { result ≡ by_word (codes "cmd" ∷ []) (drop 12 (commands edition)) word.now (view value.now) }
{
    match word {
        "AddUser" => add_user_of(value),
        "Assign" => assign_of(value, edition),
        "Deassign" => deassign_of(value, edition),
        "AddInheritance" => add_inheritance_of(value, edition),
        "DeleteInheritance" => delete_inheritance_of(value, edition),
        _ => added_command(word, value, edition),
    }
}

// Then those that the first edition doesn't have.
fn added_command(word: &str, value: &Value, edition: Edition) -> Option<Command>
    ensures { result ≡ by_word (codes "cmd" ∷ []) (added_commands edition) word.now (view value.now) }
{
    match edition {
        Edition::First => None,
        Edition::Second => second_command(word, value),
    }
}

fn second_command(word: &str, value: &Value) -> Option<Command>
    ensures { result ≡ by_word (codes "cmd" ∷ []) (added_commands Second) word.now (view value.now) }
{
    match word {
        "Embargo" => embargo_of(value),
        "Lift" => lift_of(value),
        "Rename" => rename_of(value),
        _ => None,
    }
}

/// The command that a value is, as an edition has them.
#[tactic(auto, unfolding(crate::specs::Command::command_of))]
pub fn command_of(alloc: Global, value: &Value, edition: Edition) -> Result<Command, RequestFault>
    ensures { Gives result (wanted (command_of edition (view value.now))) }
{
    match text_at(value, "cmd") {
        Some(word) => command_called(alloc, word, value, edition),
        None => Err(RequestFault::BadField),
    }
}

/// The commands of a list, as an edition has them.
pub fn commands_in(
    alloc: Global,
    list: &[Value],
    edition: Edition,
) -> Result<Commands, RequestFault>
    ensures commands { IfOk result (λ commands. commands_in edition (items_view list.now) ≡ Some commands) }
    ensures fault { IfErr result (λ fault. Fails fault (wanted (commands_in edition (items_view list.now)))) }
{
    let mut commands = Vec::new(alloc);
    for value in list {
        let command = command_of(alloc, value, edition)?;
        // The borrow checker's proof knows of a type inside a command only where a value of it stands.
        let _outcome = Outcome::PassedOut;
        commands.push(command)?;
    }
    Ok(Commands::new(commands))
}
