//! What is written of what the cards of a play cost.

ghost use Rattle.std.specs.Prelude.{◌≡◌, IfOk};
ghost use Rattle.serde_json.specs.View.{view};
ghost use Rattle.reply_texts.specs.CostsText.{card_costs_data, costs_data};
ghost use Rattle.reply_texts.specs.DataOf.{option_data};
ghost use Rattle.session_queries.specs.declared.card_costs.CardCosts.TheVariants.{NotAPlay};

use crate::to_json::list_value;
use json_fields::ObjectWriter;
use movement::Cell;
use serde_json::Value;
use session_queries::CardCosts;
use std::alloc::{AllocError, Global};

pub(crate) fn costs_value(
    alloc: Global,
    cell: Cell,
    costs: &Option<CardCosts>,
) -> Result<Value, AllocError>
    ensures { IfOk result (λ value. view value ≡ costs_data cell costs.now) }
{
    ObjectWriter::new(alloc)
        .number("board", cell.board)
        .member("costs", found_costs(alloc, costs))
        .number("table", cell.table)
        .object()
}

fn found_costs(alloc: Global, costs: &Option<CardCosts>) -> Result<Value, AllocError>
    ensures { IfOk result (λ value. view value ≡ option_data card_costs_data costs.now) }
{
    match costs {
        Some(CardCosts::Pending) => Value::try_from_str(alloc, "pending"),
        Some(CardCosts::NoCards) => Ok(Value::Array(Vec::new(alloc))),
        Some(CardCosts::Each(costs)) => list_value(alloc, costs.as_slice()),
        Some(CardCosts::NotAPlay(number)) => not_a_play(alloc, *number),
        None => Ok(Value::Null),
    }
}

fn not_a_play(alloc: Global, number: usize) -> Result<Value, AllocError>
    ensures { IfOk result (λ value. view value ≡ card_costs_data (NotAPlay number)) }
{
    ObjectWriter::new(alloc)
        .member("not_a_play", Ok(Value::from(number)))
        .object()
}
