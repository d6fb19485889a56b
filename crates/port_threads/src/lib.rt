//! A port that is served in threads: each keeper's thread serves many clients beside one another, and other threads do what is to be
//! done beside them. Who keeps what is served, and what the others do, is known by a bound alone.
#![tactic(auto)]

mod announcement;
mod hall;
mod serving_port;

pub use announcement::Announcement;
pub use hall::{ClientKeeper, Hall};
pub use serving_port::{PortError, PortPlan, serve_port};
