//! A session object as it is written: the JSON text of what a session is to open with, whose boards are given beside it.
#![tactic(auto)]

mod asked_session;
pub mod laws;
mod members;
mod movement_members;
mod reasons;
mod session;
mod user;

pub use asked_session::AskedSession;
pub use session::session_text;
