//! The clients of a hall who talk, on one thread: whose turn it is, until when each may go on, and who waits after a greeting
//! that was refused.
#![tactic(auto)]

mod hall_server;
mod hall_stream;
mod round_terms;
mod talkers;

pub use hall_server::HallServer;
pub use hall_stream::HallStream;
pub use round_terms::RoundTerms;
pub use talkers::{Newcomer, Talkers, end, end_late, let_in, serve_listed, serve_talker};
