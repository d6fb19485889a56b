//! Why a session isn't opened, and where: for which user, and in which line of the boards' text.
#![tactic(auto)]

mod checking;
pub mod laws;
mod line;
mod member;
mod mending;
mod misread;
mod refused;
mod refused_user;
mod statuses;
mod summary;
mod telling;

pub use checking::check_session;
pub use member::{MemberAt, MemberName};
pub use misread::first_misread;
pub use refused::{NamedUser, Refused};
pub use statuses::{tell_script, tell_session};
pub use summary::Summary;
