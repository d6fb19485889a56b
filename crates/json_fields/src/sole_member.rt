ghost use Rattle.std.specs.Prelude.{◌≡◌, option_map};
ghost use Rattle.serde_json.specs.View.{view};
ghost use Rattle.json_fields.specs.SoleMember.{sole_member};

use serde_json::Value;

/// The one member of an object, by its name and its value.
pub(crate) fn sole_member(value: &Value) -> Option<(&str, &Value)>
    ensures { option_map (λ m. (m.0.now, view m.1.now)) result ≡ sole_member (view value.now) }
{
    let members = value.as_object()?;
    let mut left = members.iter();
    let (name, member) = left.next()?;
    match left.next() {
        Some(_) => None,
        None => Some((name.as_str(), member)),
    }
}
