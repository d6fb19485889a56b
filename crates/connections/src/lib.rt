//! A connection: who is signed in on it, and the text that answers each of its messages.
#![tactic(auto)]

mod connection;
mod greeting;
pub mod laws;
mod message;

pub use connection::Connection;
