//! A session that threads share: opened from its book and from what its store keeps, with the desks at which it is kept for a
//! display's clients, so that what they enter is analysed, and how the clients of a display are served.
#![tactic(auto)]

mod analysing_keeper;
mod display_clients;
mod session_desks;
mod sharing;

pub use analysing_keeper::AnalysingKeeper;
pub use session_desks::{DeskFault, NewKeeper, SessionDesks, desks_of};
pub use sharing::{SharedSession, SharingFault, share_session};
