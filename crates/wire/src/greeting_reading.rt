//! The message by which a connection's user signs in, read from its members.

ghost use Rattle.std.specs.Prelude.{◌≡◌, []};
ghost use Rattle.serde_json.specs.Find.{get};
ghost use Rattle.serde_json.specs.View.{view};
ghost use Rattle.json_fields.specs.Form.{formed};
ghost use Rattle.json_fields.specs.Reading.{wanted, Gives};
ghost use Rattle.wire.specs.Greeting.{greeter, token, greeting};

use crate::request::{Request, RequestBody};
use crate::token::Token;
use json_fields::{RequestFault, has_only, name_at, text_at};
use serde_json::Value;
use std::alloc::Global;
use user_names::Name;

fn greeter_of(value: &Value) -> Result<Name, RequestFault>
    ensures { result ≡ wanted (greeter.value (get greeter.name (view value.now))) }
{
    name_at(value, "hello").ok_or(RequestFault::BadField)
}

fn token_of(alloc: Global, value: &Value) -> Result<Token, RequestFault>
    ensures { Gives result (wanted (token.value (get token.name (view value.now)))) }
{
    let Some(text) = text_at(value, "token") else {
        return Err(RequestFault::BadField);
    };
    match Token::new(alloc, text) {
        Ok(token) => Ok(token),
        Err(_) => Err(RequestFault::OutOfMemory),
    }
}

/// A greeting: these members and no other.
pub(crate) fn greeting_of(alloc: Global, value: &Value) -> Result<Request, RequestFault>
    ensures { Gives result (wanted (formed [] greeting (view value.now))) }
{
    if !has_only(value, &["hello", "token"]) {
        return Err(RequestFault::BadField);
    }
    let name = greeter_of(value)?;
    let token = token_of(alloc, value)?;
    let body = RequestBody::Hello { name, token };
    Ok(Request { user: None, body })
}
