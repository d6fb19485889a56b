//! How the members of a session object are called.

ghost use Rattle.std.specs.Prelude.{◌≡◌};
ghost use Rattle.serde_json.specs.View.{view};
ghost use Rattle.json_fields.specs.Form.{has_only};
ghost use Rattle.session_object.specs.Session.{member_names};

use json_fields::has_only;
use serde_json::Value;

/// Whether an object has no members but those of a session object, of which `pbn` is one unless the boards are given
/// beside it.
pub fn has_session_members(value: &Value, beside: bool) -> bool
    ensures { result ≡ has_only (member_names beside) (view value.now) }
{
    if beside {
        has_only(
            value,
            &[
                "absent",
                "budget",
                "date",
                "edition",
                "movement",
                "per_set",
                "reasons",
                "rounds",
                "shared_by",
                "switched",
                "tables",
                "title",
                "users",
            ],
        )
    } else {
        has_only(
            value,
            &[
                "absent",
                "budget",
                "date",
                "edition",
                "movement",
                "pbn",
                "per_set",
                "reasons",
                "rounds",
                "shared_by",
                "switched",
                "tables",
                "title",
                "users",
            ],
        )
    }
}
