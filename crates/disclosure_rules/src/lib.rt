//! Who may see what while a session is played: the facts, and the rules that forbid them, of which the first is named.
#![tactic(auto)]

mod boards;
mod fact;
pub mod laws;
mod live_cells;
mod marks;
mod phase;
mod policy;
mod public;
mod rule;
mod seat;
mod seating;
mod viewer;

pub use boards::Boards;
pub use fact::Fact;
pub use live_cells::LiveCells;
pub use marks::Marks;
pub use phase::Phase;
pub use policy::decide;
pub use public::Public;
pub use rule::Rule;
pub use seat::Seat;
pub use seating::is_seated_at;
pub use viewer::Viewer;
