//! The pattern of a position, by which a search remembers what it found out: who holds the top cards of each suit, and
//! how many cards each player has. What holds at one position holds at every position of its pattern.
#![tactic(auto)]

mod chains;
mod deal_patterns;
mod finding;
mod holders;
mod leads;
mod memory;
mod pattern;
mod sketch;

pub use deal_patterns::DealPatterns;
pub use finding::Finding;
pub use holders::Holders;
pub use leads::LastLeads;
pub use memory::Memory;
pub use pattern::{Pattern, SuitPattern};
