//! The state of a session: what a club has come to, and what each command needs and does there.
#![tactic(auto)]

mod acceptance;
mod causes;
pub mod laws;
mod schedule;
mod seated;
mod shown_user;
mod state;

pub use causes::first_cause;
pub use schedule::has_cell;
pub use seated::{Seated, is_of_side};
pub use shown_user::ShownUser;
pub use state::State;
