ghost use Rattle.std.specs.Prelude.{◌≡◌, ◌∷◌, [], List, ℕ, Bool, Some, None, IfSome, IfNone};
ghost use Rattle.pbn_pieces.specs.Bytes.{line_feed, quote, close_brace};
ghost use Rattle.pbn_pieces.specs.Cutting.{closing, split};
ghost use Rattle.pbn_pieces.specs.Cutting as cutting;
ghost use Rattle.pbn_pieces.specs.Pieces as pieces;
ghost use Rattle.pbn_pieces.specs.Pieces.{Piece, BlankLine, starts_line};
ghost use Rattle.pbn_pieces.specs.Told.{Cuts, CutsAt, Shows, NoneCloses};

use crate::spans::{Kind, split_off};
use crate::tag_text::{after_byte, quoted, tag};

/// What a reader is told of a piece.
#[derive(Clone, Copy)]
pub enum NextPiece<'t> {
    /// A tag's name and value, as written: `\"` is not yet read as `"`.
    Tag { name: &'t [u8], value: &'t [u8] },
    /// A line of nothing but blanks.
    BlankLine,
    /// A `[` that begins no tag.
    BadTag,
    /// Anything else, and whether a line ends with it.
    Skipped(bool),
}

impl NextPiece<'_> {
    /// Whether a line starts after it.
    pub(crate) fn ends_line(&self) -> bool
        ensures { (piece : Piece) → Shows self.now piece → starts_line piece ≡ result }
    {
        match self {
            NextPiece::BlankLine => true,
            NextPiece::Skipped(ends) => *ends,
            NextPiece::Tag { .. } | NextPiece::BadTag => false,
        }
    }
}

/// The first piece of a text, at a line's start or within a line, and the rest. `unclosed` goes from call to call,
/// and is at first
/// the text's length: no `"` that has at least so many bytes after it begins a quoted text, so no line is searched
/// for one twice.
pub(crate) fn next_piece<'t>(
    text: &'t [u8],
    starting: bool,
    unclosed: &mut usize,
) -> Option<(NextPiece<'t>, &'t [u8])>
    requires { NoneCloses text.now unclosed.old }
    ensures piece { IfSome result (λ found. Cuts starting text.now found.0 found.1.now) }
    ensures none { IfNone result (text.now ≡ []) }
    ensures unclosed { NoneCloses text.now unclosed.new }
{
    let (first, after) = match text {
        [first, after @ ..] => (*first, after),
        [] => return None,
    };
    if starting {
        if let Some(rest) = blank_line(text) {
            return Some((NextPiece::BlankLine, rest));
        }
    }
    Some(piece_from(starting, first, after, unclosed))
}

/// The piece that begins with this byte, where no blank line does, and the rest.
#[tactic(auto, using(crate::proofs::PieceLemmas::cuts_comment, crate::proofs::PieceLemmas::cuts_line, crate::proofs::PieceLemmas::cuts_escape, crate::proofs::PieceLemmas::cuts_quoted, crate::proofs::PieceLemmas::cuts_tag, crate::proofs::PieceLemmas::cuts_plain))]
fn piece_from<'t>(
    starting: bool,
    first: u8,
    after: &'t [u8],
    unclosed: &mut usize,
) -> (NextPiece<'t>, &'t [u8])
    requires { NoneCloses (first ∷ after.now) unclosed.old }
    ensures piece { CutsAt starting first after.now result.0 result.1.now }
    ensures unclosed { NoneCloses (first ∷ after.now) unclosed.new }
{
    if first == b'{' {
        return (NextPiece::Skipped(false), after_comment(after));
    }
    if first == b';' {
        return (NextPiece::Skipped(false), after_line(after));
    }
    if first == b'%' && starting {
        return (NextPiece::Skipped(false), after_line(after));
    }
    if first == b'"' {
        return (NextPiece::Skipped(false), after_quoted(after, unclosed));
    }
    if first == b'[' {
        return tag_from(after);
    }
    (NextPiece::Skipped(first == b'\n'), after)
}

fn tag_from(after: &[u8]) -> (NextPiece<'_>, &[u8])
    ensures { (piece : Piece) × (cutting.tagged_at after.now (cutting.tag_at after.now) ≡ (piece, result.1.now))
        × Shows result.0 piece }
{
    match tag(after) {
        Some((name, value, rest)) => (NextPiece::Tag { name, value }, rest),
        None => (NextPiece::BadTag, &[]),
    }
}

fn after_line(after: &[u8]) -> &[u8]
    ensures { result.now ≡ (split (pieces.is_other_than line_feed) after.now).1 }
{
    split_off(Kind::OtherThan(b'\n'), after).1
}

/// What stands after a line of nothing but blanks.
fn blank_line(text: &[u8]) -> Option<&[u8]>
    ensures none { IfNone result (cutting.blank_line text.now ≡ None) }
    ensures line { IfSome result (λ rest. (spaces : List ℕ) × (return : Bool) × (cutting.blank_line text.now ≡
        Some (BlankLine spaces return, rest.now))) }
{
    let rest = split_off(Kind::Spaces, text).1;
    if let Some(rest) = after_byte(b'\n', rest) {
        return Some(rest);
    }
    match after_byte(b'\r', rest) {
        Some(rest) => after_byte(b'\n', rest),
        None => None,
    }
}

fn after_comment(after: &[u8]) -> &[u8]
    ensures { result.now ≡ (cutting.comment_at (split (pieces.is_other_than close_brace) after.now).0
        (split (pieces.is_other_than close_brace) after.now).1).1 }
{
    match split_off(Kind::OtherThan(b'}'), after).1 {
        [_, rest @ ..] => rest,
        [] => &[],
    }
}

/// What stands after a quoted text, or after its `"` alone.
fn after_quoted<'t>(after: &'t [u8], unclosed: &mut usize) -> &'t [u8]
    requires { NoneCloses (quote ∷ after.now) unclosed.old }
    ensures rest { result.now ≡ (cutting.quoted_at after.now (closing after.now)).1 }
    ensures unclosed { NoneCloses (quote ∷ after.now) unclosed.new }
{
    if *unclosed <= after.len() {
        return after;
    }
    match quoted(after) {
        Some((_, rest)) => rest,
        None => {
            *unclosed = after_line(after).len();
            after
        }
    }
}
