//! The cards of duplicate bridge: hands and deals, how they are written and read, the play of the cards, and what was
//! played at a table.
#![tactic(auto)]

mod card;
mod deal;
mod deal_reading;
mod hand;
mod hand_reading;
mod holding;
mod law44;
pub mod laws;
mod pack;
mod parts;
mod play;
mod position;
mod rank;
mod trick;

pub use card::{Card, NotACard};
pub use deal::{Deal, NotADeal};
pub use deal_reading::DealTextError;
pub use hand::Hand;
pub use hand_reading::NotAHand;
pub use law44::{strength, winner};
pub use play::Play;
pub use position::{NotAPosition, NotLegal, Position};
pub use rank::Rank;
pub use trick::Trick;
