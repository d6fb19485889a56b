//! The movements that a word names, as lists of rows: the Mitchell, the Howells, share and relay, and the web.
#![tactic(auto)]

mod howell;
pub mod laws;
mod movement_word;
mod named_movement;
mod rows;

pub use movement_word::MovementWord;
pub use named_movement::NamedMovement;
