//! The thread of a hall: it accepts connections, answers them over HTTP until they are let in, and serves those who talk, all
//! beside one another, by what the system says is ready.
#![tactic(auto)]

mod asker;
mod askers;
mod entrance;
mod hall;
mod lookout;
mod source;
mod watch;

pub use hall::{HallPlan, serve_hall};
pub use watch::{HallWatch, WatchError};
