//! What a session opens with, when it isn't opened, and the state in which it opens.
#![tactic(auto)]

mod config;
pub mod laws;
mod new_user;
mod opening;
mod opening_acceptance;
mod opening_refusal;

pub use config::Config;
pub use new_user::NewUser;
pub use opening_refusal::OpeningRefusal;
