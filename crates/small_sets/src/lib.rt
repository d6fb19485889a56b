//! Sets of small numbers, as of boards, of tables or of roles.
#![tactic(auto)]

mod number_set;

pub use number_set::{NumberSet, WIDEST};
