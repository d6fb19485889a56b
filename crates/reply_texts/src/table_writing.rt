//! What is written of one table's play of a board.

ghost use Rattle.std.specs.Prelude.{◌≡◌, IfOk};
ghost use Rattle.serde_json.specs.View.{view};
ghost use Rattle.reply_texts.specs.DataOf.{number_data, list_data, option_data};
ghost use Rattle.reply_texts.specs.TableText.{card_data, play_data, reason_data};

use crate::to_json::{ToJson, list_value};
use cards::{Card, Play};
use json_fields::ObjectWriter;
use movement::Cell;
use serde_json::Value;
use std::alloc::{AllocError, Global};

pub(crate) fn play_value(
    alloc: Global,
    cell: Cell,
    cards: &Option<Play>,
) -> Result<Value, AllocError>
    ensures { IfOk result (λ value. view value ≡ play_data cell cards.now) }
{
    ObjectWriter::new(alloc)
        .number("board", cell.board)
        .member("cards", cards_value(alloc, cards))
        .number("table", cell.table)
        .object()
}

fn cards_value(alloc: Global, cards: &Option<Play>) -> Result<Value, AllocError>
    ensures { IfOk result (λ value. view value ≡ option_data (list_data card_data) cards.now) }
{
    match cards {
        Some(play) => list_value(alloc, play.as_slice()),
        None => Ok(Value::Null),
    }
}

impl ToJson for Card {
    ghost json = { card_data };

    fn to_json(&self, alloc: Global) -> Result<Value, AllocError> {
        let card = self.to_string(alloc)?;
        Ok(Value::String(card))
    }
}

pub(crate) fn reason_value(alloc: Global, cell: Cell, code: Option<u8>) -> Result<Value, AllocError>
    ensures { IfOk result (λ value. view value ≡ reason_data cell code) }
{
    ObjectWriter::new(alloc)
        .number("board", cell.board)
        .member("code", Ok(code_value(code)))
        .number("table", cell.table)
        .object()
}

fn code_value(code: Option<u8>) -> Value
    ensures { view result ≡ option_data number_data code }
{
    match code {
        Some(code) => Value::from(code),
        None => Value::Null,
    }
}
