//! A request, read from a message's bytes.

ghost use Rattle.std.specs.Prelude.{◌≡◌, ◌≢◌, length, true, IfOk, IfErr};
ghost use Rattle.std.specs.Str.Lossy.{utf8_valid_len};
ghost use Rattle.serde_json.specs.Find.{as_str, as_array};
ghost use Rattle.serde_json.specs.View.{view, items_view};
ghost use Rattle.json_fields.specs.Reading.{wanted, Gives};
ghost use Rattle.json_fields.specs.declared.request_fault.RequestFault.TheVariants.{OutOfMemory};
ghost use Rattle.wire.specs.Grammar.{Says, SaysNone};
ghost use Rattle.wire.specs.Dialect.{dialect_of};
ghost use Rattle.wire.specs.Request.{query_of, query_by, batch_of, batch_by, greeting_by, request_of, text_meaning, bytes_meaning, meaning, script_meaning, connection_meaning, said_request, is_message_text, HasFew, HasFewIn};

use crate::audit_reading::audit_of;
use crate::dialect::Dialect;
use crate::greeting_reading::greeting_of;
use crate::query_reading::{is_query_word, query_called};
use crate::request::{Request, RequestBody, ScriptRequest, UserRequest};
use crate::source::{Source, said_user};
use command_object::{commands_in, has_unknown};
use json::Scratch;
use json_fields::{RequestFault, has_only, read_since};
use json_reading::{JsonFault, read_json};
use serde_json::Value;
use session_book::Book;
use session_roles::Edition;
use std::alloc::Global;
use std::str;

/// How many bytes a message has at most, without what ends its line.
pub const MOST_MESSAGE_BYTES: usize = 65_536;

#[tactic(auto, unfolding(crate::specs::Request::query_of))]
fn query_of(
    alloc: Global,
    word: &str,
    value: &Value,
    dialect: Dialect,
) -> Result<Request, RequestFault>
    ensures { Gives result (wanted (query_of dialect word.now (view value.now))) }
{
    let user = said_user(value, dialect.source)?;
    let since = read_since(value)?;
    let query = query_called(alloc, word, value, dialect.edition)?;
    let body = RequestBody::OfUser(UserRequest::Query { query, since });
    Ok(Request { user, body })
}

fn query_by(
    alloc: Global,
    ask: &Value,
    value: &Value,
    dialect: Dialect,
) -> Result<Request, RequestFault>
    ensures { Gives result (query_by dialect (as_str (view ask.now)) (view value.now)) }
{
    match ask.as_str() {
        Some(word) if is_query_word(word, dialect.edition) => query_of(alloc, word, value, dialect),
        Some(_) => Err(RequestFault::UnknownRequest),
        None => Err(RequestFault::BadField),
    }
}

#[tactic(auto, using(json_fields::proofs::ListLemmas::item_count_of), unfolding(crate::specs::Request::batch_of))]
fn batch_of(
    alloc: Global,
    list: &[Value],
    value: &Value,
    dialect: Dialect,
) -> Result<Request, RequestFault>
    ensures { Gives result (wanted (batch_of dialect (items_view list.now) (view value.now))) }
{
    if !has_only(value, &["do", "as"]) {
        return Err(RequestFault::BadField);
    }
    let user = said_user(value, dialect.source)?;
    if list.len() > Book::MOST_COMMANDS {
        return Err(RequestFault::BadField);
    }
    let commands = commands_in(alloc, list, dialect.edition)?;
    let body = RequestBody::OfUser(UserRequest::Batch { commands });
    Ok(Request { user, body })
}

fn batch_by(
    alloc: Global,
    list: &Value,
    value: &Value,
    dialect: Dialect,
) -> Result<Request, RequestFault>
    ensures { Gives result (batch_by dialect (as_array (view list.now)) (view value.now)) }
{
    let Some(list) = list.as_array() else {
        return Err(RequestFault::BadField);
    };
    if has_unknown(list.as_slice(), dialect.edition) {
        return Err(RequestFault::UnknownRequest);
    }
    batch_of(alloc, list.as_slice(), value, dialect)
}

fn greeting_by(alloc: Global, value: &Value, source: Source) -> Result<Request, RequestFault>
    ensures { Gives result (greeting_by source (view value.now)) }
{
    match source {
        Source::Script => Err(RequestFault::UnknownRequest),
        Source::Connection => greeting_of(alloc, value),
    }
}

#[tactic(auto, unfolding(crate::specs::Request::request_of))]
fn request_of(alloc: Global, value: &Value, dialect: Dialect) -> Result<Request, RequestFault>
    ensures { Gives result (request_of dialect (view value.now)) }
{
    let members = (
        value.get("ask"),
        value.get("do"),
        value.get("audit"),
        value.get("hello"),
    );
    match members {
        (Some(ask), None, None, None) => query_by(alloc, ask, value, dialect),
        (None, Some(list), None, None) => batch_by(alloc, list, value, dialect),
        (None, None, Some(rows), None) => audit_of(rows, value, dialect.source),
        (None, None, None, Some(_)) => greeting_by(alloc, value, dialect.source),
        _ => Err(RequestFault::UnknownRequest),
    }
}

#[tactic(auto, unfolding(crate::specs::Request::text_meaning))]
fn read_text(
    alloc: Global,
    scratch: &mut Scratch,
    text: &str,
    dialect: Dialect,
) -> Result<Request, RequestFault>
    ensures { Gives result (text_meaning dialect text.now) }
{
    let value = match read_json(alloc, scratch, text) {
        Ok(value) => value,
        Err(JsonFault::OutOfMemory) => return Err(RequestFault::OutOfMemory),
        Err(JsonFault::Malformed) => return Err(RequestFault::Malformed),
    };
    if !value.is_object() {
        return Err(RequestFault::Malformed);
    }
    request_of(alloc, &value, dialect)
}

#[tactic(auto, unfolding(crate::specs::Request::bytes_meaning))]
fn read_bytes(
    alloc: Global,
    scratch: &mut Scratch,
    bytes: &[u8],
    dialect: Dialect,
) -> Result<Request, RequestFault>
    ensures meaning { Gives result (bytes_meaning dialect bytes.now) }
    ensures memory { IfErr result (λ fault. fault ≡ OutOfMemory → utf8_valid_len bytes.now ≡ length bytes.now) }
{
    match str::from_utf8(bytes) {
        Ok(text) => read_text(alloc, scratch, text, dialect),
        Err(_) => Err(RequestFault::Malformed),
    }
}

/// The request that a message's bytes are, in a session of an edition of the policy. Memory is asked for only where
/// they are not too many, and a text. What `scratch` holds for the reading of one message serves the next.
pub fn read_request(
    alloc: Global,
    scratch: &mut Scratch,
    bytes: &[u8],
    source: Source,
    edition: Edition,
) -> Result<Request, RequestFault>
    ensures request { IfOk result (Says (dialect_of source edition) bytes.now) }
    ensures none { IfErr result (λ fault. SaysNone fault (dialect_of source edition) bytes.now) }
    ensures memory { IfErr result (λ fault. fault ≡ OutOfMemory → is_message_text bytes.now ≡ true) }
    ensures few { IfOk result (λ request. HasFewIn request.body) }
{
    if bytes.len() > MOST_MESSAGE_BYTES {
        return Err(RequestFault::TooLong);
    }
    read_bytes(alloc, scratch, bytes, Dialect { source, edition })
}

/// The request that a script's message is, and whose it is. Each names its user.
#[tactic(auto, using(crate::proofs::GrammarLemmas::script_said, crate::proofs::GrammarLemmas::script_none))]
pub fn read_script_request(
    alloc: Global,
    bytes: &[u8],
    edition: Edition,
) -> Result<ScriptRequest, RequestFault>
    ensures meaning { Gives result (script_meaning edition bytes.now) }
    ensures memory { IfErr result (λ fault. fault ≡ OutOfMemory → is_message_text bytes.now ≡ true) }
    ensures few { IfOk result (λ said. HasFew said.request) }
{
    let mut scratch = Scratch::new(alloc);
    match read_request(alloc, &mut scratch, bytes, Source::Script, edition) {
        Ok(request) => said_request(request),
        Err(fault) => Err(fault),
    }
}

/// What a message on a connection wants: something for who is signed in there, or a user who signs in.
#[tactic(auto, using(crate::proofs::GrammarLemmas::connection_said, crate::proofs::GrammarLemmas::connection_none))]
pub fn read_connection_request(
    alloc: Global,
    scratch: &mut Scratch,
    bytes: &[u8],
    edition: Edition,
) -> Result<RequestBody, RequestFault>
    ensures meaning { Gives result (connection_meaning edition bytes.now) }
    ensures memory { IfErr result (λ fault. fault ≡ OutOfMemory → is_message_text bytes.now ≡ true) }
    ensures few { IfOk result HasFewIn }
{
    match read_request(alloc, scratch, bytes, Source::Connection, edition) {
        Ok(Request { body, .. }) => Ok(body),
        Err(fault) => Err(fault),
    }
}

// The user whom a request names and what it wants, where it names one and greets nobody; any other names nothing.
fn said_request(request: Request) -> Result<ScriptRequest, RequestFault>
    ensures said { Gives result (said_request request) }
    ensures memory { IfErr result (λ fault. fault ≢ OutOfMemory) }
{
    match request {
        Request {
            user: Some(user),
            body: RequestBody::OfUser(request),
        } => Ok(ScriptRequest { user, request }),
        _ => Err(RequestFault::UnknownRequest),
    }
}
