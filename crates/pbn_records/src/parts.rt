ghost use Rattle.std.specs.Prelude.{◌≡◌, ◌≢◌, ◌++◌, ℕ, List, [], ◌∷◌, All, IfSome, IfNone};
ghost use Rattle.std.specs.Char as char_words;
ghost use Rattle.table_terms.specs.declared.place.Place.{Place};
ghost use Rattle.table_terms.specs.Place.{place_letter};
ghost use Rattle.pbn_pieces.specs.Bytes.{space};
ghost use Rattle.pbn_records.specs.Bytes.{colon};
ghost use Rattle.pbn_records.specs.DealValue.{parts, four_of, HasParts};
ghost use Rattle.pbn_records.specs.FourParts.{kept_parts};

use crate::tag_at::TagAt;
use table_terms::Place;

/// What stands between the spaces of a value, in four parts.
#[derive(Clone, Copy)]
pub(crate) struct FourParts<'t> {
    begin: &'t [u8],
    left: &'t [u8],
    opposite: &'t [u8],
    right: &'t [u8],
}

/// The four hands of a Deal as they are written, clockwise from one player's.
#[derive(Clone, Copy)]
pub(crate) struct DealParts<'t> {
    pub(crate) first: Place,
    pub(crate) own: &'t [u8],
    pub(crate) left: &'t [u8],
    pub(crate) opposite: &'t [u8],
    pub(crate) right: &'t [u8],
}

/// The parts of a value, if there are four.
pub(crate) fn four_parts(value: &[u8]) -> Option<FourParts<'_>>
    ensures { kept_parts result ≡ four_of (parts value.now) }
{
    let Some((begin, rest)) = next_part(value) else {
        return None;
    };
    let Some((left, rest)) = next_part(rest) else {
        return None;
    };
    let Some((opposite, rest)) = next_part(rest) else {
        return None;
    };
    let Some((right, rest)) = next_part(rest) else {
        return None;
    };
    if next_part(rest).is_some() {
        return None;
    }
    Some(FourParts {
        begin,
        left,
        opposite,
        right,
    })
}

/// The four parts of a tag's value, the first of them after a player's letter and a colon.
pub(crate) fn deal_parts<'t>(tag: &TagAt<'t>) -> Option<DealParts<'t>>
    ensures parts { IfSome result
        (λ found. HasParts tag.now.value.now found.first found.own.now found.left.now found.opposite.now found.right.now) }
    ensures none { IfNone result ((first : Place) (own left opposite right : List ℕ) →
        ¬ HasParts tag.now.value.now first own left opposite right) }
{
    let Some(parts) = tag.four else {
        return None;
    };
    let Some((first, own)) = first_player(parts.begin) else {
        return None;
    };
    Some(DealParts {
        first,
        own,
        left: parts.left,
        opposite: parts.opposite,
        right: parts.right,
    })
}

/// The player whose letter stands before a colon, and what follows it.
fn first_player(begin: &[u8]) -> Option<(Place, &[u8])>
    ensures player { IfSome result (λ found. (letter : ℕ) × (char_words.to_ascii_uppercase letter
        ≡ place_letter found.0) × (begin.now ≡ letter ∷ colon ∷ found.1.now)) }
    ensures none { IfNone result ((place : Place) (letter : ℕ) (own : List ℕ) →
        char_words.to_ascii_uppercase letter ≡ place_letter place → begin.now ≢ letter ∷ colon ∷ own) }
{
    match begin {
        [letter, b':', own @ ..] => {
            match Place::from_letter(char::from(letter.to_ascii_uppercase())) {
                Some(place) => Some((place, own)),
                None => None,
            }
        }
        _ => None,
    }
}

/// The first part of a text between its spaces, and what follows it.
fn next_part(text: &[u8]) -> Option<(&[u8], &[u8])>
    ensures part { IfSome result (λ found. parts text.now ≡ found.0.now ∷ parts found.1.now) }
    ensures none { IfNone result (parts text.now ≡ []) }
{
    let text = after_spaces(text);
    if text.is_empty() {
        return None;
    }
    Some(split_at_space(text))
}

/// What follows the spaces at the front.
fn after_spaces(text: &[u8]) -> &[u8]
    ensures parts { parts result.now ≡ parts text.now }
    ensures first { (byte : ℕ) (bytes : List ℕ) → result.now ≡ byte ∷ bytes → byte ≢ space }
{
    let mut rest = text;
    while let [b' ', after @ ..] = rest {
        rest = after;
    }
    rest
}

/// What stands before the first space, and from it on.
fn split_at_space(text: &[u8]) -> (&[u8], &[u8])
    ensures joined { text.now ≡ result.0.now ++ result.1.now }
    ensures each { All (λ byte. byte ≢ space) result.0.now }
    ensures first { (byte : ℕ) (bytes : List ℕ) → result.1.now ≡ byte ∷ bytes → byte ≡ space }
{
    for (i, byte) in text.iter().enumerate() {
        if *byte == b' ' {
            return (&text[..i], &text[i..]);
        }
    }
    (text, &[])
}
