//! Where a message comes from, and whose it is.

ghost use Rattle.std.specs.Prelude.{◌≡◌};
ghost use Rattle.serde_json.specs.Find.{get};
ghost use Rattle.serde_json.specs.View.{view};
ghost use Rattle.json_fields.specs.Reading.{wanted};
ghost use Rattle.wire.specs.Source.{said_user};

use json_fields::{RequestFault, name_at};
use serde_json::Value;
use user_names::Name;

/// Where a message comes from.
#[derive(Clone, Copy)]
pub enum Source {
    /// A script, each message of which says whose it is.
    Script,
    /// A connection, whose messages are those of the user who has signed in.
    Connection,
}

/// Whose a message is, where it has to say so. Nothing may say it on a connection.
pub(crate) fn said_user(value: &Value, source: Source) -> Result<Option<Name>, RequestFault>
    ensures { result ≡ wanted ((said_user source).value (get (said_user source).name (view value.now))) }
{
    match source {
        Source::Script => match name_at(value, "as") {
            Some(name) => Ok(Some(name)),
            None => Err(RequestFault::BadField),
        },
        Source::Connection => match value.get("as") {
            Some(_) => Err(RequestFault::BadField),
            None => Ok(None),
        },
    }
}
