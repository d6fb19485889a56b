//! Values that stand in lists, and lists of them, as JSON.

ghost use Rattle.std.specs.Prelude.{◌≡◌, IfOk};
ghost use Rattle.serde_json.specs.Data.{Data};
ghost use Rattle.serde_json.specs.View.{view};
ghost use Rattle.reply_texts.specs.DataOf.{number_data, list_data};

use json_fields::array_value;
use serde_json::{Value, push};
use std::alloc::{AllocError, Global};

/// What a list in a reply holds.
pub(crate) trait ToJson {
    ghost json: { Self → Data };

    fn to_json(&self, alloc: Global) -> Result<Value, AllocError>
        ensures { IfOk result (λ value. view value ≡ json self.now) };
}

impl ToJson for u8 {
    ghost json = { number_data };

    fn to_json(&self, _alloc: Global) -> Result<Value, AllocError> {
        Ok(Value::from(*self))
    }
}

/// The elements in their order, as an array.
pub(crate) fn list_value<T: ToJson>(alloc: Global, items: &[T]) -> Result<Value, AllocError>
    ensures { IfOk result (λ value. view value ≡ list_data T.json items.now) }
{
    let mut values = Vec::with_capacity(alloc, items.len())?;
    for item in items {
        let value = item.to_json(alloc)?;
        push(&mut values, value)?;
    }
    Ok(array_value(values))
}
