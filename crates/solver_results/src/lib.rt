//! What a double-dummy solver finds: a deal's table, and what each card of a play costs. The types keep that the numbers
//! are those of the definition, so who is handed one needs no solver.
#![tactic(auto)]

mod costs;
mod dd_table;
mod play_answer;
mod play_costs;

pub use costs::Costs;
pub use dd_table::{DdTable, DeclarerTricks};
pub use play_answer::PlayAnswer;
pub use play_costs::PlayCosts;
