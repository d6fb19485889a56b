//! What a PBN text is joined of: comments, escape lines, quoted texts, tags, blank lines and plain bytes (PBN 2.1, in
//! this project's profile).
#![tactic(auto)]

pub mod laws;
mod piece;
mod pieces;
mod spans;
mod tag_text;

pub use piece::NextPiece;
pub use pieces::Pieces;
