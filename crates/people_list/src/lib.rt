//! The people of a session as a club lists them: a CSV text with a line for each person, under a line that names the columns.
#![tactic(auto)]

mod field;
mod header;
mod people_fault;
mod person;
mod reading;
mod rows;

pub use people_fault::{LineFault, PeopleFault};
pub use person::Person;
pub use reading::{MOST_LIST_BYTES, read_people};
