//! The edition of the policy that a session object asks for.

ghost use Rattle.std.specs.Prelude.{◌≡◌};
ghost use Rattle.serde_json.specs.Find.{get};
ghost use Rattle.serde_json.specs.View.{view};
ghost use Rattle.session_object.specs.Session.{edition_numbered, session_edition};

use serde_json::Value;
use session_roles::Edition;

fn edition_numbered(number: u64) -> Option<Edition>
    ensures { result ≡ edition_numbered number }
{
    match Edition::from_number(number) {
        Some(edition) => Some(edition),
        None => None,
    }
}

/// The edition in the member `edition`, which is the first where there is no such member.
pub(crate) fn read_edition(value: &Value) -> Option<Edition>
    ensures { result ≡ session_edition.value (get session_edition.name (view value.now)) }
{
    match value.get("edition") {
        None => Some(Edition::First),
        Some(member) => match member.as_u64() {
            Some(number) => edition_numbered(number),
            None => None,
        },
    }
}
