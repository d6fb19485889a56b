//! Par: what a board comes to where both sides see all the cards and each bids for its best.
#![tactic(auto)]

mod auction;
mod best_bids;
mod bid;
pub mod laws;
mod par;
#[cfg(test)]
mod tests;

pub use auction::par_of_board;
pub use par::Par;
