//! A JSON text, read.

ghost use Rattle.std.specs.Prelude.{◌≡◌, None, Some, Err, IfOk, IfErr};
ghost use Rattle.serde_json.specs.Read.{read as read_text};
ghost use Rattle.serde_json.specs.View.{view};

use crate::copying::copied;
use crate::json_fault::JsonFault;
use json::{Error, Reader, Scratch, Value as Borrowed};
use serde_json::Value;
use std::alloc::Global;

// How deep arrays and objects nest at most, as in `Value::from_str`.
const MOST_DEPTH: usize = 127;

/// The value that a text is, as `serde_json::Value::from_str` reads it, but in memory that is kept from one text to the
/// next: it isn't cleared for each, and grows once to the length of the longest.
pub fn read_json(alloc: Global, scratch: &mut Scratch, text: &str) -> Result<Value, JsonFault>
    ensures value { IfOk result (λ value. read_text text.now ≡ Some (view value)) }
    ensures none { result ≡ Err JsonFault.Malformed → read_text text.now ≡ None }
{
    let mut reader = match Reader::new(text, scratch) {
        Ok(reader) => reader,
        Err(_) => return Err(JsonFault::OutOfMemory),
    };
    let borrowed = match Borrowed::read(alloc, &mut reader, MOST_DEPTH) {
        Ok(borrowed) => borrowed,
        Err(Error::Invalid) => return Err(JsonFault::Malformed),
        Err(_) => return Err(JsonFault::OutOfMemory),
    };
    if reader.next().is_some() {
        return Err(JsonFault::Malformed);
    }
    match copied(alloc, &borrowed) {
        Ok(Some(value)) => Ok(value),
        Ok(None) => Err(JsonFault::Malformed),
        Err(_) => Err(JsonFault::OutOfMemory),
    }
}
