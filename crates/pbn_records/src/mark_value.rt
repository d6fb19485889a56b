ghost use Rattle.std.specs.Prelude.{◌≡◌, IfSome, IfNone};
ghost use Rattle.table_terms.specs.declared.place.Place.{Place};
ghost use Rattle.table_terms.specs.declared.vulnerability.Vulnerability.{Vulnerability};
ghost use Rattle.pbn_records.specs.MarkValue as marks;
ghost use Rattle.pbn_records.specs.MarkValue.{IsDealerValue, IsVulnerableValue};
ghost use Rattle.pbn_records.specs.Values as values;

use table_terms::{Place, Vulnerability};

/// Whether a value says nothing.
pub(crate) fn is_open(value: &[u8]) -> bool
    ensures { result ≡ marks.is_open value.now }
{
    value.is_empty() || *value == *b"?".as_slice()
}

/// Whether a value begins with `##`.
pub(crate) fn is_inherited_form(value: &[u8]) -> bool
    ensures { result ≡ values.is_inherited_form value.now }
{
    match value {
        [first, second, ..] => *first == b'#' && *second == b'#',
        _ => false,
    }
}

/// The player of a letter, in either case.
pub(crate) fn dealer(value: &[u8]) -> Option<Place>
    ensures place { IfSome result (IsDealerValue value.now) }
    ensures none { IfNone result ((place : Place) → ¬ IsDealerValue value.now place) }
{
    let [letter] = value else {
        return None;
    };
    Place::from_letter(char::from(letter.to_ascii_uppercase()))
}

/// The marking of a word, in either case.
pub(crate) fn vulnerability(value: &[u8]) -> Option<Vulnerability>
    ensures word { IfSome result (IsVulnerableValue value.now) }
    ensures none { IfNone result ((vulnerability : Vulnerability) → ¬ IsVulnerableValue value.now vulnerability) }
{
    if value.eq_ignore_ascii_case(b"None")
        || value.eq_ignore_ascii_case(b"Love")
        || value.eq_ignore_ascii_case(b"-")
    {
        Some(Vulnerability::Neither)
    } else if value.eq_ignore_ascii_case(b"NS") {
        Some(Vulnerability::NorthSouth)
    } else if value.eq_ignore_ascii_case(b"EW") {
        Some(Vulnerability::EastWest)
    } else if value.eq_ignore_ascii_case(b"All") || value.eq_ignore_ascii_case(b"Both") {
        Some(Vulnerability::Both)
    } else {
        None
    }
}
