//! Exports in PBN 2.1: tags and tables as they are written, so that the boards are read back.
#![tactic(auto)]

pub mod laws;
mod tables;

pub use tables::{first_item, next_item, table, tag, vulnerable_word};
