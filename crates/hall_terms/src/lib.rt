//! What is asked of the clients of a hall: until when each has to do what it has to, and how many are served at once.
#![tactic(auto)]

mod client_end;
mod client_event;
mod client_stage;
mod client_time;
pub mod laws;
mod room;
#[cfg(test)]
mod tests;

pub use client_end::ClientEnd;
pub use client_event::ClientEvent;
pub use client_stage::ClientStage;
pub use client_time::ClientTime;
pub use room::{MOST_CLIENTS, has_room, most_strangers};
