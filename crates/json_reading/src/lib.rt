//! JSON texts, read into values in memory that is kept from one text to the next.
#![tactic(auto)]

mod copying;
mod json_fault;
mod number;
mod reading;

pub use json_fault::JsonFault;
pub use reading::read_json;
