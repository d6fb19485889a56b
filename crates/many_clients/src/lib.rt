//! Text messages of many clients over WebSockets on streams that don't block, one message after another, whoever sends it.
#![tactic(auto)]

mod client;
mod clients;
pub mod laws;
mod ready_stream;
mod turn;
mod turn_end;

pub use client::Client;
pub use clients::{admit, dismiss, serve_all, serve_at};
pub use ready_stream::ReadyStream;
pub use turn_end::TurnEnd;
