ghost use Rattle.std.specs.Prelude.{◌≡◌, IfOk, List, ℕ, string_bytes};
ghost use Rattle.serde_json.specs.Data.{string};
ghost use Rattle.serde_json.specs.View.{view};

use serde_json::Value;
use std::alloc::AllocError;

/// A text that was made, as a value.
pub fn string_value(text: Result<String, AllocError>) -> Result<Value, AllocError>
    ensures { (bytes : List ℕ) →
        IfOk text (λ made. string_bytes made ≡ bytes) →
        IfOk result (λ value. view value ≡ string bytes) }
{
    match text {
        Ok(made) => Ok(Value::String(made)),
        Err(refused) => Err(refused),
    }
}
