//! Two copies of a view, of which one is shown: one publisher changes the other and then shows it in its place, and
//! displays read the one that is shown. A display takes no lock and waits for nobody; the publisher waits for those that
//! still read what it is to change.
#![tactic(auto)]

mod display;
mod publisher;
mod receipt;
mod rule;
mod view_copy;

pub use display::Display;
pub use publisher::{MOST_DISPLAYS, OpenError, Publisher, open_displays};
pub use receipt::Receipt;
pub use rule::{Copies, Server};
pub use view_copy::{Publication, ViewCopy};
