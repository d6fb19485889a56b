//! The cards of a board, as a message has them.

ghost use Rattle.std.specs.Prelude.{◌≡◌, ◌++◌, ◌∷◌, [], IfOk, map, take};
ghost use Rattle.serde_json.specs.Data.{string, array};
ghost use Rattle.serde_json.specs.View.{view, items_of};
ghost use Rattle.json_fields.specs.Written.{HasItems};
ghost use Rattle.cards.specs.Card.{card_text};
ghost use Rattle.command_writing.specs.ResultData.{written_play};
ghost use Rattle.command_writing.specs.Values.{IsWritablePlay};

use cards::{Card, Play};
use json_fields::{ArrayWriter, string_value};
use serde_json::Value;
use std::alloc::{AllocError, Global};

/// The cards of a play.
pub(crate) fn play_value(alloc: Global, play: &Play) -> Result<Value, AllocError>
    ensures value { IfOk result (λ value. view value ≡ written_play play.now) }
    ensures writable { IsWritablePlay play.now }
{
    cards_value(alloc, play.as_slice())
}

/// Cards as texts.
pub(crate) fn cards_value(alloc: Global, cards: &[Card]) -> Result<Value, AllocError>
    ensures { IfOk result (λ value. view value ≡ written_play cards.now) }
{
    let mut items = ArrayWriter::new(alloc);
    for card in cards {
        items = items.item(string_value(card.to_string(alloc)));
    }
    items.array()
}
