//! What is written of a board's par.

ghost use Rattle.std.specs.Prelude.{◌≡◌, IfOk};
ghost use Rattle.serde_json.specs.View.{view};
ghost use Rattle.reply_texts.specs.DataOf.{option_data};
ghost use Rattle.reply_texts.specs.ParText.{end_data, score_data, par_data};

use crate::traveller_writing::outcome_value;
use json_fields::ObjectWriter;
use par::Par;
use serde_json::Value;
use std::alloc::{AllocError, Global};

pub(crate) fn par_value(alloc: Global, number: u8, par: &Option<Par>) -> Result<Value, AllocError>
    ensures { IfOk result (λ value. view value ≡ par_data number par.now) }
{
    ObjectWriter::new(alloc)
        .number("board", number)
        .member("result", end_value(alloc, par))
        .member("score", Ok(score_value(par)))
        .object()
}

fn end_value(alloc: Global, par: &Option<Par>) -> Result<Value, AllocError>
    ensures { IfOk result (λ value. view value ≡ option_data end_data par.now) }
{
    match par {
        Some(par) => outcome_value(alloc, par.outcome),
        None => Ok(Value::Null),
    }
}

fn score_value(par: &Option<Par>) -> Value
    ensures { view result ≡ option_data score_data par.now }
{
    match par {
        Some(par) => Value::from(par.score),
        None => Value::Null,
    }
}
