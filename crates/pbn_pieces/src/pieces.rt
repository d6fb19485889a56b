ghost use Rattle.std.specs.Prelude.{◌≡◌, [], true, length, IfSome, IfNone};
ghost use Rattle.pbn_pieces.specs.Told.{Takes};

use crate::piece::{NextPiece, next_piece};
use std::marker::Model;

/// A text that is cut into pieces, from its front.
#[derive(Drop)]
pub struct Pieces<'t> {
    rest: &'t [u8],
    starting: bool,
    // No `"` that has at least so many bytes after it begins a quoted text: so no line is searched twice for a
    // closing one.
    unclosed: usize,
}

impl<'t> Model for Pieces<'t> {
    ghost use Rattle.pbn_pieces.specs.Told.{Uncut, NoneCloses};

    ghost Value = { Uncut };

    ghost view = { λ pieces. record { starting = pieces.starting; rest = pieces.rest.now } };

    ghost invariant = { λ pieces. NoneCloses pieces.rest.now pieces.unclosed };
}

impl<'t> Pieces<'t> {
    /// A whole text, which begins with a line.
    pub fn new(text: &'t [u8]) -> Pieces<'t>
        ensures { result ≡ record { starting = true; rest = text.now } }
    {
        Pieces {
            rest: text,
            starting: true,
            unclosed: text.len(),
        }
    }

    /// How many bytes are left.
    pub fn left(&self) -> usize
        ensures { result ≡ length self.now.rest }
    {
        self.rest.len()
    }

    /// Takes the first piece off, if any byte is left.
    pub fn next_piece(&mut self) -> Option<NextPiece<'t>>
        ensures piece { IfSome result (λ found. Takes self.old found self.new) }
        ensures none { IfNone result (self.old.rest ≡ []) }
    {
        let Some((found, rest)) = next_piece(self.rest, self.starting, &mut self.unclosed) else {
            return None;
        };
        self.starting = found.ends_line();
        self.rest = rest;
        Some(found)
    }
}
