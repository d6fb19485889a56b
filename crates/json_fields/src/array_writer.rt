ghost use Rattle.std.specs.Prelude.{◌≡◌, ◌∷◌, ◌++◌, [], List, IfOk, map};
ghost use Rattle.serde_json.specs.Data.{Data, array};
ghost use Rattle.serde_json.specs.View.{view, items_of};
ghost use Rattle.json_fields.specs.Written.{HasItems};

use serde_json::{Value, push};
use std::alloc::{AllocError, Global};

/// The items of an array so far, unless memory for one of them was refused.
#[derive(Drop)]
pub struct ArrayWriter {
    written: Result<Vec<Value>, AllocError>,
}

impl ArrayWriter {
    pub fn new(alloc: Global) -> ArrayWriter
        ensures { HasItems result [] }
    {
        ArrayWriter {
            written: Ok(Vec::new(alloc)),
        }
    }

    /// Adds an item.
    pub fn item(self, value: Result<Value, AllocError>) -> ArrayWriter
        ensures { (items : List Data) (written : Data) →
            HasItems self items →
            IfOk value (λ v. view v ≡ written) →
            HasItems result (items ++ written ∷ []) }
    {
        ArrayWriter {
            written: with_item(self.written, value),
        }
    }

    /// The array.
    pub fn array(self) -> Result<Value, AllocError>
        ensures { (items : List Data) →
            HasItems self items →
            IfOk result (λ value. view value ≡ array (items_of items)) }
    {
        match self.written {
            Ok(list) => Ok(array_value(list)),
            Err(refused) => Err(refused),
        }
    }
}

fn with_item(
    before: Result<Vec<Value>, AllocError>,
    value: Result<Value, AllocError>,
) -> Result<Vec<Value>, AllocError>
    ensures { (items : List Data) (written : Data) →
        IfOk before (λ list. map view list.items ≡ items) →
        IfOk value (λ v. view v ≡ written) →
        IfOk result (λ list. map view list.items ≡ items ++ written ∷ []) }
{
    let value = value?;
    let mut list = before?;
    push(&mut list, value)?;
    Ok(list)
}

/// The array of these items.
pub fn array_value(list: Vec<Value>) -> Value
    ensures { view result ≡ array (items_of (map view list.items)) }
{
    Value::Array(list)
}
