//! The JSON text of every reply to a query: what it tells of the users, boards and results, the status, and lists of
//! them.
#![tactic(auto)]

mod accounts_writing;
mod board_writing;
mod costs_writing;
mod hand_writing;
mod list_writing;
mod par_writing;
mod reply_writing;
mod status_writing;
mod table_writing;
mod to_json;
mod traveller_writing;

pub use reply_writing::reply_text;
