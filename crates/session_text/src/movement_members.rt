//! The movement that is asked for.

ghost use Rattle.std.specs.Prelude.{◌≡◌, ◌∷◌, [], IfOk, codes, map, take};
ghost use Rattle.serde_json.specs.Data.{Members, array};
ghost use Rattle.serde_json.specs.View.{view, items_of};
ghost use Rattle.json_fields.specs.Written.{HasItems, HasMembers};
ghost use Rattle.session_text.specs.Members.{put_if_there};
ghost use Rattle.session_text.specs.SessionData.{whole_data, pair_data, row_data, asked_movement_data};

use json_fields::{ArrayWriter, ObjectWriter, string_value};
use movement::Row;
use serde_json::Value;
use session_object::AskedMovement;
use std::alloc::{AllocError, Global};

/// Adds the movement that is asked for, where one is.
pub(crate) fn with_movement(
    alloc: Global,
    writer: ObjectWriter,
    movement: &AskedMovement,
) -> ObjectWriter
    ensures { (members : Members) → HasMembers writer members →
        HasMembers result (put_if_there (codes "movement") (asked_movement_data movement.now) members) }
{
    match movement {
        AskedMovement::Nothing => writer,
        AskedMovement::Word(word) => writer.member(
            "movement",
            Value::try_from_str(alloc, word.text()),
        ),
        AskedMovement::Rows(rows) => writer.member("movement", rows_value(alloc, rows.as_slice())),
    }
}

fn rows_value(alloc: Global, rows: &[Row]) -> Result<Value, AllocError>
    ensures { IfOk result (λ value. view value ≡ array (items_of (map row_data rows.now))) }
{
    let mut items = ArrayWriter::new(alloc);
    for row in rows {
        items = items.item(row_value(alloc, row));
    }
    items.array()
}

fn row_value(alloc: Global, row: &Row) -> Result<Value, AllocError>
    ensures { IfOk result (λ value. view value ≡ row_data row.now) }
{
    ArrayWriter::new(alloc)
        .item(Ok(Value::from(row.round)))
        .item(Ok(Value::from(row.table)))
        .item(Ok(Value::from(row.set)))
        .item(string_value(row.north_south.to_string(alloc)))
        .item(string_value(row.east_west.to_string(alloc)))
        .array()
}
