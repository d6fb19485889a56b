//! What a club prepares for a session: the object with which it opens, a list of who signs in by what, and a page of cards to
//! print. Nothing here reads or writes a file.
#![tactic(auto)]

mod cards_page;
mod escaping;
mod guest;
pub mod laws;
mod plan;
mod prepared;
mod preparing_fault;
mod sign_in_list;
mod users;
mod writable;

pub use plan::Plan;
pub use prepared::{Prepared, prepare};
pub use preparing_fault::PreparingFault;
