//! An entry, written.

ghost use Rattle.std.specs.Prelude.{◌≡◌, Some, IfOk, string_bytes};
ghost use Rattle.serde_json.specs.Read.{read};
ghost use Rattle.command_writing.specs.CommandData.{command_data};
ghost use Rattle.command_writing.specs.Writable.{IsWritable};
ghost use Rattle.entry_texts.specs.EntryTexts.{actor_text, command_text, texts_of_entry, texts_in, IsActor, IsKeepable};

use crate::confirming::confirmed_text;
use command_writing::command_value;
use session_commands::{Actor, Command, Entry};
use std::alloc::{AllocError, Global};

/// An entry as two texts.
#[derive(Drop)]
pub struct EntryText {
    /// Who gave it: `user NAME`, or `solver`.
    pub actor: String,
    /// Its command as JSON.
    pub command: String,
}

/// The texts of an entry.
pub fn entry_text(alloc: Global, entry: &Entry) -> Result<EntryText, AllocError>
    ensures texts { IfOk result (λ text. texts_in text ≡ texts_of_entry entry.now) }
    ensures keepable { IfOk result (λ _. IsKeepable entry.now) }
{
    let actor = written_actor(alloc, &entry.actor)?;
    let command = written_command(alloc, &entry.command)?;
    Ok(EntryText { actor, command })
}

fn written_actor(alloc: Global, actor: &Actor) -> Result<String, AllocError>
    ensures text { IfOk result (λ text. string_bytes text ≡ actor_text actor.now) }
    ensures actor { IsActor actor.now }
{
    match actor {
        Actor::User(name) => {
            let name = name.as_str();
            format!(in alloc; "user {name}")
        }
        Actor::Solver => String::from_str(alloc, "solver"),
    }
}

fn written_command(alloc: Global, command: &Command) -> Result<String, AllocError>
    ensures text { IfOk result (λ text. string_bytes text ≡ command_text command.now) }
    ensures writable { IsWritable command.now }
    ensures json { IfOk result (λ text. read (string_bytes text) ≡ Some (command_data command.now)) }
{
    match command {
        Command::Confirm { cell, outcome } => confirmed_text(alloc, *cell, *outcome),
        _ => value_text(alloc, command),
    }
}

// By the tree of its values.
fn value_text(alloc: Global, command: &Command) -> Result<String, AllocError>
    ensures text { IfOk result (λ text. string_bytes text ≡ command_text command.now) }
    ensures writable { IsWritable command.now }
    ensures json { IfOk result (λ text. read (string_bytes text) ≡ Some (command_data command.now)) }
{
    let value = command_value(alloc, command)?;
    value.to_string(alloc)
}
