//! The text of a Confirm, written at once: the tree of its values would take three times as long, while everybody waits for it.

ghost use Rattle.std.specs.Prelude.{◌≡◌, Some, IfOk, string_bytes};
ghost use Rattle.serde_json.specs.Read.{read};
ghost use Rattle.session_commands.specs.declared.command.Command.TheVariants.{Confirm};
ghost use Rattle.scoring.specs.declared.outcome.Outcome.TheVariants.{PassedOut, Played};
ghost use Rattle.serde_json.specs.Written.{compact_text};
ghost use Rattle.command_writing.specs.ResultData.{written_outcome};
ghost use Rattle.command_writing.specs.CommandData.{command_data};
ghost use Rattle.command_writing.specs.Writable.{IsWritable};
ghost use Rattle.entry_texts.specs.EntryTexts.{command_text};

use movement::Cell;
use scoring::{Contract, Outcome, Tricks};
use std::alloc::{AllocError, Global};
use std::fmt::Write;

// How many bytes the text has at most, and the result in it.
const LONGEST: usize = 108;

const LONGEST_RESULT: usize = 57;

/// The text of a Confirm.
pub(crate) fn confirmed_text(
    alloc: Global,
    cell: Cell,
    outcome: Outcome,
) -> Result<String, AllocError>
    ensures text { IfOk result (λ text. string_bytes text ≡ command_text (Confirm cell outcome)) }
    ensures writable { IsWritable (Confirm cell outcome) }
    ensures json { IfOk result (λ text. read (string_bytes text) ≡ Some (command_data (Confirm cell outcome))) }
{
    match outcome {
        Outcome::PassedOut => passed_out_text(alloc, cell),
        Outcome::Played { contract, tricks } => played_text(alloc, cell, contract, tricks),
    }
}

// Of a board that was passed out.
fn passed_out_text(alloc: Global, cell: Cell) -> Result<String, AllocError>
    ensures text { IfOk result (λ text. string_bytes text ≡ command_text (Confirm cell PassedOut)) }
    ensures writable { IsWritable (Confirm cell PassedOut) }
{
    let Cell { table, board } = cell;
    format!(in alloc;
        "{{\"board\":{board},\"cmd\":\"Confirm\",\"result\":\"pass\",\"table\":{table}}}"
    )
}

// Of a board that was played.
fn played_text(
    alloc: Global,
    cell: Cell,
    contract: Contract,
    tricks: Tricks,
) -> Result<String, AllocError>
    ensures text { IfOk result (λ text. string_bytes text ≡ command_text (Confirm cell (Played contract tricks))) }
    ensures writable { IsWritable (Confirm cell (Played contract tricks)) }
{
    let Cell { table, board } = cell;
    let result = result_text(alloc, contract, tricks)?;
    let mut text = String::with_capacity(alloc, LONGEST)?;
    write!(
        text,
        "{{\"board\":{board},\"cmd\":\"Confirm\",\"result\":{result},\"table\":{table}}}"
    )?;
    Ok(text)
}

// How a board ended that was played.
fn result_text(alloc: Global, contract: Contract, tricks: Tricks) -> Result<String, AllocError>
    ensures text { IfOk result (λ text. string_bytes text ≡ compact_text (written_outcome (Played contract tricks))) }
{
    let (by, doubled) = (contract.declarer, contract.doubling.number());
    let mut text = String::with_capacity(alloc, LONGEST_RESULT)?;
    write!(text, "{{\"by\":\"{by}\",\"doubled\":{doubled},\"level\":")?;
    let (level, strain) = (contract.level.number(), contract.strain);
    write!(text, "{level},\"strain\":\"{strain}\",\"tricks\":")?;
    let tricks = tricks.number();
    write!(text, "{tricks}}}")?;
    Ok(text)
}
