//! The terms of a table of duplicate bridge: places, sides and pairs, suits and strains, and what is marked on a board.
//! And a list that clauses see as its items, for the structs of the crates above.
#![tactic(auto)]

mod items;
mod law2;
pub mod laws;
mod pair;
mod pair_reading;
mod place;
mod side;
mod strain;
mod suit;
mod vulnerability;

pub use items::Items;
pub use law2::{dealer_of, vulnerability_of};
pub use pair::Pair;
pub use pair_reading::NotAPair;
pub use place::Place;
pub use side::Side;
pub use strain::Strain;
pub use suit::Suit;
pub use vulnerability::Vulnerability;
