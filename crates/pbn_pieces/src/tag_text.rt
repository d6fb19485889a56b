//! A tag as it is written.

ghost use Rattle.std.specs.Prelude.{◌≡◌, List, ℕ, Option, Some, None, OnSome, IfSome, IfNone, MatchOption};
ghost use Rattle.pbn_pieces.specs.Pieces.{Tag};
ghost use Rattle.pbn_pieces.specs.Pieces as pieces;
ghost use Rattle.pbn_pieces.specs.Cutting.{closing, tag_at};
ghost use Rattle.pbn_pieces.specs.Cutting as cutting;

use crate::spans::{Kind, split_off};

/// What stands before the closing `"` on the line, and after it.
pub(crate) fn quoted(bytes: &[u8]) -> Option<(&[u8], &[u8])>
    ensures { MatchOption result (closing bytes.now ≡ None) (λ found. closing bytes.now ≡
        Some (found.0.now, found.1.now)) }
{
    let mut at = 0;
    while at < bytes.len() {
        let byte = bytes[at];
        if byte == b'"' {
            return Some((&bytes[..at], &bytes[at + 1..]));
        }
        if byte == b'\n' {
            return None;
        }
        let escaped = at + 1 < bytes.len() && is_escape(byte, bytes[at + 1]);
        at += if escaped { 2 } else { 1 };
    }
    None
}

/// Whether these are `\"` or `\\`.
fn is_escape(first: u8, second: u8) -> bool
    ensures { result ≡ pieces.is_escape first second }
{
    first == b'\\' && (second == b'"' || second == b'\\')
}

/// The name and the value of the tag that stands after a `[`, and the rest.
#[tactic(auto, unfolding(crate::specs::Cutting::tag_at))]
pub(crate) fn tag(bytes: &[u8]) -> Option<(&[u8], &[u8], &[u8])>
    ensures { MatchOption result (tag_at bytes.now ≡ None)
        (λ found. (tag : Tag) × (tag_at bytes.now ≡ Some (tag, found.2.now)) × (tag.name ≡ found.0.now)
        × (tag.value ≡ found.1.now)) }
{
    let rest = split_off(Kind::Blanks, bytes).1;
    let Some((name, rest)) = name(rest) else {
        return None;
    };
    let rest = split_off(Kind::Blanks, rest).1;
    let Some(rest) = after_byte(b'"', rest) else {
        return None;
    };
    let Some((value, rest)) = quoted(rest) else {
        return None;
    };
    let rest = split_off(Kind::Blanks, rest).1;
    match after_byte(b']', rest) {
        Some(rest) => Some((name, value, rest)),
        None => None,
    }
}

fn name(bytes: &[u8]) -> Option<(&[u8], &[u8])>
    ensures { MatchOption result (cutting.tag_name_at bytes.now ≡ None) (λ found. cutting.tag_name_at bytes.now ≡
        Some (found.0.now, found.1.now)) }
{
    let (name, rest) = split_off(Kind::NameBytes, bytes);
    if name.is_empty() {
        None
    } else {
        Some((name, rest))
    }
}

pub(crate) fn after_byte(wanted: u8, bytes: &[u8]) -> Option<&[u8]>
    ensures { MatchOption result (cutting.after_byte wanted bytes.now ≡ None)
        (λ rest. cutting.after_byte wanted bytes.now ≡ Some rest.now) }
{
    match bytes {
        [first, rest @ ..] if *first == wanted => Some(rest),
        _ => None,
    }
}
