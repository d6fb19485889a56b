//! A session's clients, beside one another: a connection's messages over WebSockets, and all that is exchanged with them.
#![tactic(auto)]

pub mod laws;
mod serving_hall;
mod session_server;

pub use serving_hall::serve_session_hall;
