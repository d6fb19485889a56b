//! Texts of one letter.

ghost use Rattle.std.specs.Prelude.{◌≡◌};
ghost use Rattle.json_fields.specs.Letter.{place_named, strain_named};

use table_terms::{Place, Strain};

/// The place whose letter the text is.
pub fn place_named(text: &str) -> Option<Place>
    ensures { result ≡ place_named text.now }
{
    match text.as_bytes() {
        [letter] => Place::from_letter(char::from(*letter)),
        _ => None,
    }
}

/// The strain whose letter the text is.
pub fn strain_named(text: &str) -> Option<Strain>
    ensures { result ≡ strain_named text.now }
{
    match text.as_bytes() {
        [letter] => Strain::from_letter(char::from(*letter)),
        _ => None,
    }
}
