//! The boards of a PBN text: a deal, a dealer and a vulnerability for each number (PBN 2.1, in this project's profile).
#![tactic(auto)]

mod board;
mod board_set;
mod deal_value;
mod deals_error;
mod fault;
mod game;
mod known;
mod known_boards;
pub mod laws;
mod mark_value;
mod number;
mod parts;
mod reader;
mod reading;
mod state;
mod tag_at;
mod used;

pub use board::Board;
pub use board_set::BoardSet;
pub use deals_error::DealsError;
pub use reading::read_deals;
