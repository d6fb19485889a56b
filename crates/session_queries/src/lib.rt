//! What a user may ask of a session, what a reply can be, and what it shows: each fact of the session's state that the
//! policy allows the user, with what it says.
#![tactic(auto)]

mod body;
mod card_costs;
mod known;
pub mod laws;
mod public_facts;
mod push;
mod query;
mod reply;
mod results;
mod told_notices;

pub use body::Body;
pub use card_costs::CardCosts;
pub use known::{analysis_of, board_par, costs_of, play_of, reason_of};
pub use public_facts::PublicFacts;
pub use push::push_found;
pub use query::Query;
pub use reply::Reply;
pub use results::{put_results, shown_results};
pub use told_notices::ToldNotices;
