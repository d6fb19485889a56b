//! What is written of a list of boards, and of a ranking.

ghost use Rattle.std.specs.Prelude.{◌≡◌, IfOk};
ghost use Rattle.serde_json.specs.View.{view};
ghost use Rattle.reply_texts.specs.ListText.{boards_data, standing_data};

use crate::to_json::{ToJson, list_value};
use json_fields::{ArrayWriter, ObjectWriter, string_value};
use scoring::Standing;
use serde_json::Value;
use std::alloc::{AllocError, Global};

pub(crate) fn boards_value(alloc: Global, boards: &[u8], more: bool) -> Result<Value, AllocError>
    ensures { IfOk result (λ value. view value ≡ boards_data boards.now more) }
{
    ObjectWriter::new(alloc)
        .member("boards", list_value(alloc, boards))
        .member("more", Ok(Value::from(more)))
        .object()
}

impl ToJson for Standing {
    ghost json = { standing_data };

    fn to_json(&self, alloc: Global) -> Result<Value, AllocError> {
        ArrayWriter::new(alloc)
            .item(string_value(self.pair.to_string(alloc)))
            .item(Ok(Value::from(self.earned)))
            .item(Ok(Value::from(self.tops)))
            .array()
    }
}
