//! What a session tells its members of itself: its title, its date, and what the reasons of rulings mean.
#![tactic(auto)]

mod notice_text;
mod notices;

pub use notice_text::NoticeText;
pub use notices::Notices;
