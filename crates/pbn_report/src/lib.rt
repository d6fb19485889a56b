//! What a session comes to, as an export in PBN 2.1.
#![tactic(auto)]

pub mod laws;
mod pbn_games;

pub use pbn_games::pbn_text;
