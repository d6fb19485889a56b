//! What a contract scores, what a score earns in matchpoints, and how pairs rank, by the Laws of Duplicate Bridge 2017.
#![tactic(auto)]

mod contract;
mod doubling;
mod law77;
mod law78a;
pub mod laws;
mod level;
mod outcome;
mod ranking;
mod standing;
mod tricks;

pub use contract::Contract;
pub use doubling::Doubling;
pub use law77::{ns_score, score};
pub use law78a::matchpoints;
pub use level::Level;
pub use outcome::Outcome;
pub use ranking::rank_order;
pub use standing::Standing;
pub use tricks::Tricks;
