//! The door of a hall: which requests over HTTP lead to the session, what the others get, and for how many clients there is
//! room.
#![tactic(auto)]

mod door;
mod hall_page;
mod room;
mod session_request;

pub use door::Door;
pub use hall_page::HallPage;
pub use room::{HallPlace, Room};
