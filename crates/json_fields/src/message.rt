//! The members of a message, by their names.

ghost use Rattle.std.specs.Prelude.{◌≡◌};
ghost use Rattle.serde_json.specs.Find.{get};
ghost use Rattle.serde_json.specs.View.{view};
ghost use Rattle.json_fields.specs.Reading.{wanted};
ghost use Rattle.json_fields.specs.Message.{table, board, declarer, strain, since};

use crate::field::{small_number_at, text_at};
use crate::letter::{place_named, strain_named};
use crate::request_fault::RequestFault;
use serde_json::Value;
use table_terms::{Place, Strain};

/// The table that a message names.
pub fn read_table(value: &Value) -> Option<u8>
    ensures { result ≡ table.value (get table.name (view value.now)) }
{
    small_number_at(value, "table")
}

/// The board that a message names.
pub fn read_board(value: &Value) -> Option<u8>
    ensures { result ≡ board.value (get board.name (view value.now)) }
{
    small_number_at(value, "board")
}

/// Who declares, by the member `by`.
pub fn read_declarer(value: &Value) -> Option<Place>
    ensures { result ≡ declarer.value (get declarer.name (view value.now)) }
{
    place_named(text_at(value, "by")?)
}

/// The strain in which a board is played, by the member `strain`.
pub fn read_strain(value: &Value) -> Option<Strain>
    ensures { result ≡ strain.value (get strain.name (view value.now)) }
{
    strain_named(text_at(value, "strain")?)
}

/// The version from which on an answer is wanted: 0 where nothing says so.
pub fn read_since(value: &Value) -> Result<u64, RequestFault>
    ensures { result ≡ wanted (since.value (get since.name (view value.now))) }
{
    match value.get("since") {
        Some(member) => match member.as_u64() {
            Some(number) => Ok(number),
            None => Err(RequestFault::BadField),
        },
        None => Ok(0),
    }
}
