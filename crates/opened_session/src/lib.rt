//! A session opened by a session object: its book, and what the object gives the solver.
#![tactic(auto)]

mod opened_session;
mod opening;
mod opening_fault;

pub use opened_session::OpenedSession;
pub use opening::open_session;
pub use opening_fault::OpeningFault;
