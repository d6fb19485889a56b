//! Messages over WebSockets: what answers the messages of clients, and what is sent for an answer.
#![tactic(auto)]

mod answering;
mod listening;
mod longest_message;
mod message_server;

pub use answering::{answer_message, close_frame, fixed_message};
pub use listening::listen;
pub use longest_message::LONGEST_MESSAGE;
pub use message_server::MessageServer;
