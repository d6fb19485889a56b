//! A session's state beside what each class of its users is shown of it: the boards whose hands they see, and how the
//! pairs stand on these.
#![tactic(auto)]

mod board_earnings;
mod class_sight;
mod class_view;
mod class_views;
mod kept;
pub mod laws;
mod pair_totals;
mod user_class;

pub use class_views::ClassViews;
pub use user_class::UserClass;
