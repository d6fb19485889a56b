//! What is written to a user who has signed in.

ghost use Rattle.std.specs.Prelude.{◌≡◌, IfOk, string_bytes};
ghost use Rattle.serde_json.specs.View.{view};
ghost use Rattle.connections.specs.Serving.{hello_data, hello_text};

use json_fields::ObjectWriter;
use serde_json::Value;
use std::alloc::{AllocError, Global};
use user_names::Name;

/// What the user is told who has signed in.
#[tactic(auto, unfolding(crate::specs::Serving::hello_text))]
pub(crate) fn hello_text(alloc: Global, name: Name) -> Result<String, AllocError>
    ensures { IfOk result (λ text. string_bytes text ≡ hello_text name) }
{
    let value = hello_value(alloc, name)?;
    value.to_string(alloc)
}

fn hello_value(alloc: Global, name: Name) -> Result<Value, AllocError>
    ensures { IfOk result (λ value. view value ≡ hello_data name) }
{
    ObjectWriter::new(alloc)
        .member("hello", Value::try_from_str(alloc, name.as_str()))
        .object()
}
