//! The session object with which a session opens: read from its JSON text and from the PBN text of its boards.
#![tactic(auto)]

mod asked_movement;
mod edition_reading;
pub mod laws;
mod made_movement;
mod member_names;
mod movement_reading;
mod notice_reading;
mod object;
mod parts;
mod reading;
mod session_fault;
mod user;

pub use asked_movement::AskedMovement;
pub use member_names::has_session_members;
pub use notice_reading::is_date;
pub use object::SessionObject;
pub use reading::{MOST_BYTES, read_session};
pub use session_fault::SessionFault;
