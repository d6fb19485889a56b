//! Double dummy: how many tricks a side takes when all four players play their best with all cards seen, of a position
//! and of a deal, and what each card of a play cost. A search finds it that tries one card of each run of equal cards
//! and remembers what it found out by the pattern of a position. Which card is tried first decides nothing but the
//! time.
#![tactic(auto)]

mod asking;
mod budget;
mod card_costs;
mod dd_table;
mod error;
mod likely;
mod masters;
mod order;
mod played_costs;
mod run;
mod search;
mod shared_trumps;
mod solver;
mod sure;
mod trick;
mod weights;

pub use budget::Budget;
pub use card_costs::costs;
pub use dd_table::table;
pub use error::{CostsError, SolveError};
pub use played_costs::play_costs;
pub use solver::solve;
