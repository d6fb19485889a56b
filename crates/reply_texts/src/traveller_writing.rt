//! What is written of a traveller.

ghost use Rattle.std.specs.Prelude.{◌≡◌, IfOk};
ghost use Rattle.serde_json.specs.View.{view};
ghost use Rattle.reply_texts.specs.TravellerText.{outcome_data, result_data, traveller_row_data, traveller_data};
ghost use Rattle.scoring.specs.declared.outcome.Outcome.TheVariants as outcome;
ghost use Rattle.standings.specs.declared.row_result.RowResult.TheVariants.{Played, Ruled};

use crate::to_json::{ToJson, list_value};
use json_fields::{ObjectWriter, string_value};
use scoring::{Contract, Outcome, Tricks};
use serde_json::Value;
use standings::{RowResult, TravellerRow};
use std::alloc::{AllocError, Global};

/// A traveller of a board, with these rows.
pub(crate) fn traveller_value(
    alloc: Global,
    number: u8,
    rows: &[TravellerRow],
) -> Result<Value, AllocError>
    ensures { IfOk result (λ value. view value ≡ traveller_data number rows.now) }
{
    ObjectWriter::new(alloc)
        .number("board", number)
        .member("rows", list_value(alloc, rows))
        .object()
}

impl ToJson for TravellerRow {
    ghost json = { traveller_row_data };

    fn to_json(&self, alloc: Global) -> Result<Value, AllocError> {
        match self.result {
            RowResult::Played {
                outcome,
                score,
                points,
            } => played_value(alloc, self, outcome, score, points),
            RowResult::Ruled {
                north_south,
                east_west,
            } => ruled_value(alloc, self, north_south, east_west),
        }
    }
}

fn played_value(
    alloc: Global,
    row: &TravellerRow,
    outcome: Outcome,
    score: i32,
    points: u32,
) -> Result<Value, AllocError>
    ensures { IfOk result (λ value. view value
        ≡ result_data row.now.table row.now.north_south row.now.east_west (Played outcome score points)) }
{
    ObjectWriter::new(alloc)
        .member("ew", string_value(row.east_west.to_string(alloc)))
        .member("ns", string_value(row.north_south.to_string(alloc)))
        .member("points", Ok(Value::from(points)))
        .member("result", outcome_value(alloc, outcome))
        .member("score", Ok(Value::from(score)))
        .number("table", row.table)
        .object()
}

fn ruled_value(
    alloc: Global,
    row: &TravellerRow,
    north_south_percentage: u8,
    east_west_percentage: u8,
) -> Result<Value, AllocError>
    ensures { IfOk result (λ value. view value ≡ result_data row.now.table row.now.north_south row.now.east_west
        (Ruled north_south_percentage east_west_percentage)) }
{
    let ruling = [north_south_percentage, east_west_percentage];
    ObjectWriter::new(alloc)
        .member("ew", string_value(row.east_west.to_string(alloc)))
        .member("ns", string_value(row.north_south.to_string(alloc)))
        .member("ruling", list_value(alloc, &ruling))
        .number("table", row.table)
        .object()
}

pub(crate) fn outcome_value(alloc: Global, outcome: Outcome) -> Result<Value, AllocError>
    ensures { IfOk result (λ value. view value ≡ outcome_data outcome) }
{
    match outcome {
        Outcome::PassedOut => Value::try_from_str(alloc, "pass"),
        Outcome::Played { contract, tricks } => contract_value(alloc, contract, tricks),
    }
}

fn contract_value(alloc: Global, contract: Contract, tricks: Tricks) -> Result<Value, AllocError>
    ensures { IfOk result (λ value. view value ≡ outcome_data (outcome.Played contract tricks)) }
{
    ObjectWriter::new(alloc)
        .member("by", string_value(contract.declarer.to_string(alloc)))
        .number("doubled", contract.doubling.number())
        .number("level", contract.level.number())
        .member("strain", string_value(contract.strain.to_string(alloc)))
        .number("tricks", tricks.number())
        .object()
}
