//! What a session comes to at a version, as a director sees it: the facts that every written report tells.
#![tactic(auto)]

mod board_report;
mod boards;
mod membership;
mod player;
mod players;
mod ranking;
mod report;
mod result_row;

pub use board_report::BoardReport;
pub use membership::Membership;
pub use player::Player;
pub use report::{Report, report_of};
pub use result_row::ResultRow;
