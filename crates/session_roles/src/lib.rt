//! The roles of a session (ANSI INCITS 359-2012): sets of them, what each may do, and which of them nobody has
//! together.
#![tactic(auto)]

mod edition;
mod operation;
mod role;
mod role_row;
mod role_set;
mod separation_set;

pub use edition::Edition;
pub use operation::Operation;
pub use role::Role;
pub use role_row::RoleRow;
pub use role_set::RoleSet;
pub use separation_set::SeparationSet;
