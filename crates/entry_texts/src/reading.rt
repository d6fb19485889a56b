//! The texts of an entry, read.

ghost use Rattle.std.specs.Prelude.{◌≡◌, ◌<◌, ◌≤◌, ℕ, List, length, Some, Ok, IfSome, IfOk, codes};
ghost use Rattle.serde_json.specs.Find.{get};
ghost use Rattle.serde_json.specs.View.{view};
ghost use Rattle.user_names.specs.declared.name.TheConstants.Name.{MOST};
ghost use Rattle.json_fields.specs.Field.{text_at};
ghost use Rattle.cards.specs.Hands.{Hands, IsDeal};
ghost use Rattle.cards.specs.HandText.{deal_text};
ghost use Rattle.movement.specs.declared.cell.Cell.{Cell as ACell};
ghost use Rattle.scoring.specs.declared.contract.Contract.{Contract as AContract};
ghost use Rattle.solver_results.specs.PlayAnswer.{PlayedDeal};
ghost use Rattle.session_commands.specs.declared.actor.Actor.{Actor as AnActor};
ghost use Rattle.session_commands.specs.declared.actor.Actor.TheVariants.{User};
ghost use Rattle.session_commands.specs.declared.command.Command.{Command};
ghost use Rattle.session_commands.specs.declared.command.Command.TheVariants as command;
ghost use Rattle.session_commands.specs.declared.entry.Entry.{Entry};
ghost use Rattle.session_roles.specs.declared.edition.Edition.TheVariants.{Second};
ghost use Rattle.command_object.specs.Command.{command_of};
ghost use Rattle.command_writing.specs.CommandData.{command_data, solved_data, analysed_data};
ghost use Rattle.command_writing.specs.FoundData.{contract_data};
ghost use Rattle.command_writing.specs.Values.{IsWritableCell, IsContract};
ghost use Rattle.command_writing.specs.Writable.{IsWritable};
ghost use Rattle.entry_texts.specs.declared.kept_entry.KeptEntry.TheVariants.{Solved, Analysed};
ghost use Rattle.entry_texts.specs.EntryTexts.{texts_of_entry, actor_text, IsActor, IsKeepable};
ghost use Rattle.entry_texts.specs.Kept.{IsReadable, IsOwn, TellsEntry, fault_of};

use crate::kept_entry::KeptEntry;
use crate::text_fault::TextFault;
use cards::{Deal, Play};
use command_object::{command_of, doubling_of, level_of, read_play};
use json_fields::{RequestFault, read_board, read_declarer, read_strain, read_table, text_at};
use movement::Cell;
use scoring::Contract;
use serde_json::Value;
use session_commands::{Actor, Entry};
use session_roles::Edition;
use std::alloc::Global;
use user_names::Name;

/// What the texts of an entry tell. Who reads rows that others may have changed writes what was found again, and
/// compares the texts.
pub fn read_entry(alloc: Global, actor: &str, command: &str) -> Result<KeptEntry, TextFault>
    ensures tells { (entry : Entry) → IsKeepable entry → IsReadable entry.actor entry.command →
        texts_of_entry entry ≡ record { actor = actor.now; command = command.now } → TellsEntry entry result }
    ensures own { IfOk result IsOwn }
{
    let value = match Value::from_str(alloc, command) {
        Ok(value) => value,
        Err(error) if error.is_memory() => return Err(TextFault::OutOfMemory),
        Err(_) => return Err(TextFault::Unreadable),
    };
    read_value(alloc, actor, &value)
}

fn read_value(alloc: Global, actor: &str, value: &Value) -> Result<KeptEntry, TextFault>
    ensures tells { (entry : Entry) → IsKeepable entry → IsReadable entry.actor entry.command →
        actor_text entry.actor ≡ actor.now → command_data entry.command ≡ view value.now → TellsEntry entry result }
    ensures own { IfOk result IsOwn }
{
    match actor_named(actor) {
        Some(actor) => told_by(alloc, &actor, value),
        None => Err(TextFault::Unreadable),
    }
}

fn told_by(alloc: Global, actor: &Actor, value: &Value) -> Result<KeptEntry, TextFault>
    ensures tells { (entry : Entry) → IsKeepable entry → IsReadable entry.actor entry.command →
        entry.actor ≡ actor.now → command_data entry.command ≡ view value.now → TellsEntry entry result }
    ensures own { IfOk result IsOwn }
{
    told_as(alloc, actor, value)
}

// By the command's word: what the solver tells, by what it is of, and each other command whole.
fn told_as(alloc: Global, actor: &Actor, value: &Value) -> Result<KeptEntry, TextFault>
    ensures solved { (board : ℕ) (deal : Hands) → board < 256 → IsDeal deal →
        view value.now ≡ solved_data board deal → result ≡ Ok (Solved actor.now board deal) }
    ensures analysed { (cell : ACell) (played : PlayedDeal) → IsWritable (command.Analysed cell played) →
        view value.now ≡ analysed_data cell played →
        TellsEntry (record { actor = actor.now; command = command.Analysed cell played }) result }
    ensures given { (name : List ℕ) (command : Command) → actor.now ≡ User name →
        command_of Second (view value.now) ≡ Some command →
        TellsEntry (record { actor = User name; command = command }) result }
    ensures own { IfOk result IsOwn }
{
    match text_at(value, "cmd") {
        Some("Solved") => solved_of(*actor, value),
        Some("Analysed") => analysed_of(alloc, *actor, value),
        _ => given_by(alloc, actor, value),
    }
}

// What isn't the solver's to tell a user gives.
fn given_by(alloc: Global, actor: &Actor, value: &Value) -> Result<KeptEntry, TextFault>
    ensures given { (name : List ℕ) (command : Command) → actor.now ≡ User name →
        command_of Second (view value.now) ≡ Some command →
        TellsEntry (record { actor = User name; command = command }) result }
    ensures own { IfOk result IsOwn }
{
    match actor {
        Actor::User(name) => given(alloc, name, value),
        Actor::Solver => Err(TextFault::Unreadable),
    }
}

// Who gave it, where the text is that of a user or the solver.
fn actor_named(text: &str) -> Option<Actor>
    ensures { (actor : AnActor) → IsActor actor → text.now ≡ actor_text actor → result ≡ Some actor }
{
    if text == "solver" {
        return Some(Actor::Solver);
    }
    match text.strip_prefix("user ") {
        Some(name) => user_named(name),
        None => None,
    }
}

fn user_named(text: &str) -> Option<Actor>
    ensures { length text.now ≤ MOST → result ≡ Some (User text.now) }
{
    match Name::new(text) {
        Ok(name) => Some(Actor::User(name)),
        Err(_) => None,
    }
}

// A user's command is one that a client can send.
fn given(alloc: Global, name: &Name, value: &Value) -> Result<KeptEntry, TextFault>
    ensures tells { (command : Command) → command_of Second (view value.now) ≡ Some command →
        TellsEntry (record { actor = User name.now; command = command }) result }
    ensures own { IfOk result IsOwn }
{
    match command_of(alloc, value, Edition::Second) {
        Ok(command) => Ok(KeptEntry::Given(Entry {
            actor: Actor::User(*name),
            command,
        })),
        Err(fault) => Err(text_fault(fault)),
    }
}

fn solved_of(actor: Actor, value: &Value) -> Result<KeptEntry, TextFault>
    ensures solved { (board : ℕ) (deal : Hands) → board < 256 → IsDeal deal →
        view value.now ≡ solved_data board deal → result ≡ Ok (Solved actor board deal) }
    ensures own { IfOk result IsOwn }
{
    match (read_board(value), deal_of(value)) {
        (Some(board), Some(deal)) => Ok(KeptEntry::Solved { actor, board, deal }),
        _ => Err(TextFault::Unreadable),
    }
}

fn analysed_of(alloc: Global, actor: Actor, value: &Value) -> Result<KeptEntry, TextFault>
    ensures analysed { (cell : ACell) (played : PlayedDeal) → IsWritable (command.Analysed cell played) →
        view value.now ≡ analysed_data cell played →
        TellsEntry (record { actor = actor; command = command.Analysed cell played }) result }
    ensures own { IfOk result IsOwn }
{
    match read_play(alloc, value) {
        Ok(play) => played_of(actor, value, play),
        Err(fault) => Err(text_fault(fault)),
    }
}

// With this play, what stands beside it.
fn played_of(actor: Actor, value: &Value, play: Play) -> Result<KeptEntry, TextFault>
    ensures analysed { (cell : ACell) (played : PlayedDeal) → IsWritable (command.Analysed cell played) →
        view value.now ≡ analysed_data cell played →
        result ≡ Ok (Analysed actor cell played.deal played.contract play) }
    ensures own { IfOk result IsOwn }
{
    let cell = match cell_of(value) {
        Some(cell) => cell,
        None => return Err(TextFault::Unreadable),
    };
    match (deal_of(value), contract_at(value)) {
        (Some(deal), Some(contract)) => Ok(KeptEntry::Analysed {
            actor,
            cell,
            deal,
            contract,
            play,
        }),
        _ => Err(TextFault::Unreadable),
    }
}

fn cell_of(value: &Value) -> Option<Cell>
    ensures { (cell : ACell) (played : PlayedDeal) → IsWritableCell cell → view value.now ≡ analysed_data cell played →
        result ≡ Some cell }
{
    let table = read_table(value)?;
    let board = read_board(value)?;
    Some(Cell { table, board })
}

fn contract_at(value: &Value) -> Option<Contract>
    ensures { (contract : AContract) → IsContract contract →
        get (codes "contract") (view value.now) ≡ Some (contract_data contract) → result ≡ Some contract }
{
    contract_of(value.get("contract")?)
}

// The deal in the member `deal`.
fn deal_of(value: &Value) -> Option<Deal>
    ensures { (deal : Hands) → IsDeal deal → text_at (codes "deal") (view value.now) ≡ Some (deal_text deal) →
        result ≡ Some deal }
{
    deal_named(text_at(value, "deal")?)
}

fn deal_named(text: &str) -> Option<Deal>
    ensures { (deal : Hands) → IsDeal deal → text.now ≡ deal_text deal → result ≡ Some deal }
{
    match text.parse::<Deal>() {
        Ok(deal) => Some(deal),
        Err(_) => None,
    }
}

fn contract_of(value: &Value) -> Option<Contract>
    ensures { (contract : AContract) → IsContract contract → view value.now ≡ contract_data contract →
        result ≡ Some contract }
{
    let declarer = read_declarer(value)?;
    let doubling = doubling_of(value)?;
    let level = level_of(value)?;
    let strain = read_strain(value)?;
    Some(Contract {
        level,
        strain,
        declarer,
        doubling,
    })
}

// What a fault of reading a command is of the texts.
fn text_fault(fault: RequestFault) -> TextFault
    ensures { result ≡ fault_of fault }
{
    match fault {
        RequestFault::OutOfMemory => TextFault::OutOfMemory,
        _ => TextFault::Unreadable,
    }
}
