//! How a board ended, as a message has it.

ghost use Rattle.std.specs.Prelude.{◌≡◌, IfOk};
ghost use Rattle.serde_json.specs.Data.{Members, object, no_members};
ghost use Rattle.serde_json.specs.View.{view};
ghost use Rattle.json_fields.specs.Written.{HasMembers};
ghost use Rattle.scoring.specs.declared.outcome.Outcome.TheVariants.{Played};
ghost use Rattle.command_writing.specs.ResultData.{written_outcome, contract_members};
ghost use Rattle.command_writing.specs.Values.{IsContract, IsWritableOutcome};

use json_fields::{ObjectWriter, string_value};
use scoring::{Contract, Outcome, Tricks};
use serde_json::Value;
use std::alloc::{AllocError, Global};

pub(crate) fn outcome_value(alloc: Global, outcome: Outcome) -> Result<Value, AllocError>
    ensures writable { IsWritableOutcome outcome }
    ensures value { IfOk result (λ value. view value ≡ written_outcome outcome) }
{
    match outcome {
        Outcome::PassedOut => Value::try_from_str(alloc, "pass"),
        Outcome::Played { contract, tricks } => played_value(alloc, contract, tricks),
    }
}

fn played_value(alloc: Global, contract: Contract, tricks: Tricks) -> Result<Value, AllocError>
    ensures writable { IsWritableOutcome (Played contract tricks) }
    ensures value { IfOk result (λ value. view value ≡ written_outcome (Played contract tricks)) }
{
    contract_writer(alloc, contract)
        .number("tricks", tricks.number())
        .object()
}

/// An object with the members of a contract.
pub(crate) fn contract_writer(alloc: Global, contract: Contract) -> ObjectWriter
    ensures writable { IsContract contract }
    ensures members { HasMembers result (contract_members contract no_members) }
{
    ObjectWriter::new(alloc)
        .member("by", string_value(contract.declarer.to_string(alloc)))
        .number("doubled", contract.doubling.number())
        .number("level", contract.level.number())
        .member("strain", string_value(contract.strain.to_string(alloc)))
}
