//! A session object, read from its text.

ghost use Rattle.std.specs.Prelude.{◌≡◌, IfOk, IfErr, option_map, ◌≤◌, length};
ghost use Rattle.serde_json.specs.View.{view};
ghost use Rattle.session_object.specs.declared.session_fault.SessionFault.TheVariants.{OutOfMemory};
ghost use Rattle.session_object.specs.Reading.{most_bytes, IsReadAsJson, ReadsSession, IsSessionRefused, ReadsObject, IsRefusedObject, fault_of_deals};

use crate::made_movement::movement_of;
use crate::object::SessionObject;
use crate::parts::parts_of;
use crate::session_fault::SessionFault;
use notices::Notices;
use pbn_records::{BoardSet, DealsError, read_deals};
use serde_json::Value;
use session_opening::Config;
use std::alloc::Global;
use std::str;

/// How many bytes the text of a session object has at most.
pub const MOST_BYTES: usize = 1_048_576;

/// Reads a session object. The PBN text of its boards is its member `pbn`, unless one is given beside it. Memory is asked
/// for only where the bytes are not too many, and a text.
pub fn read_session(
    alloc: Global,
    text: &[u8],
    given: Option<&[u8]>,
) -> Result<SessionObject, SessionFault>
    ensures read { IfOk result (ReadsSession (option_map (λ bytes. bytes.now) given.entry) text.now) }
    ensures refused { IfErr result (λ fault. IsSessionRefused fault (option_map (λ bytes. bytes.now) given.entry) text.now) }
    ensures memory { IfErr result (λ fault. fault ≡ OutOfMemory → IsReadAsJson text.now) }
{
    if text.len() > MOST_BYTES {
        return Err(SessionFault::TooLong);
    }
    match str::from_utf8(text) {
        Ok(text) => read_text(alloc, text, given),
        Err(_) => Err(SessionFault::Malformed),
    }
}

// Reads a text that isn't too long.
fn read_text(alloc: Global, text: &str, given: Option<&[u8]>) -> Result<SessionObject, SessionFault>
    requires { length text.now ≤ most_bytes }
    ensures read { IfOk result (ReadsSession (option_map (λ bytes. bytes.now) given.entry) text.now) }
    ensures refused { IfErr result (λ fault. IsSessionRefused fault (option_map (λ bytes. bytes.now) given.entry) text.now) }
{
    let value = match Value::from_str(alloc, text) {
        Ok(value) => value,
        Err(error) if error.is_memory() => return Err(SessionFault::OutOfMemory),
        Err(_) => return Err(SessionFault::Malformed),
    };
    if !value.is_object() {
        return Err(SessionFault::Malformed);
    }
    read_object(alloc, &value, given)
}

// Reads an object: its members, then the movement that it asks for, then its boards.
fn read_object(
    alloc: Global,
    value: &Value,
    given: Option<&[u8]>,
) -> Result<SessionObject, SessionFault>
    ensures read { IfOk result (ReadsObject (option_map (λ bytes. bytes.now) given.entry) (view value.now)) }
    ensures refused { IfErr result (λ fault.
        IsRefusedObject fault (option_map (λ bytes. bytes.now) given.entry) (view value.now)) }
{
    let parts = match parts_of(alloc, value, given) {
        Ok(parts) => parts,
        Err(fault) => return Err(fault),
    };
    let movement = match movement_of(&parts) {
        Ok(movement) => movement,
        Err(fault) => return Err(fault),
    };
    match read_deals(alloc, parts.pbn, movement.boards()) {
        Ok(boards) => Ok(SessionObject {
            config: Config {
                edition: parts.edition,
                movement,
                boards,
                users: parts.users,
                notices: Notices {
                    title: parts.title,
                    date: parts.date,
                    reasons: parts.reasons,
                },
            },
            budget: parts.budget,
        }),
        Err(error) => Err(fault_of_deals(error)),
    }
}

// The fault of a session object whose boards' text is refused.
fn fault_of_deals(error: DealsError) -> SessionFault
    ensures { result ≡ fault_of_deals error }
{
    match error {
        DealsError::OutOfMemory => SessionFault::OutOfMemory,
        _ => SessionFault::Deals(error),
    }
}
