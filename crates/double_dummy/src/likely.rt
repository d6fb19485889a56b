//! Where the search for a deal's tricks begins. A guess decides nothing but the time: each trick that it is wrong by costs
//! a search more, and one too high costs less than one too low, since a refusal is remembered for the searches that follow.

ghost use Rattle.std.specs.Prelude.{◌≤◌};

use cards::{Deal, Hand};
use table_terms::{Place, Strain};

// The four aces; one bit lower are the kings, then the queens and the knaves.
const ACES: u64 = 0x8_0040_0200_1000;

/// How many tricks North and South are likely to take, and one more, by their honour points and trumps. The numbers were
/// fitted to random deals.
pub fn likely_tricks(deal: Deal, strain: Strain) -> u8 {
    let hands = deal.hand(Place::North).union(deal.hand(Place::South));
    let sixteenths = match strain.trump() {
        Some(suit) => (6 * points(hands) + 18 * hands.of_suit(suit).len()).saturating_sub(109),
        None => (8 * points(hands)).saturating_sub(40),
    };
    (sixteenths / 16).min(13) as u8
}

/// Four for each ace, three for each king, two for each queen, and one for each knave.
fn points(hands: Hand) -> u32
    ensures { result ≤ 640 }
{
    let word = hands.word();
    4 * (word & ACES).count_ones()
        + 3 * (word & ACES >> 1).count_ones()
        + 2 * (word & ACES >> 2).count_ones()
        + (word & ACES >> 3).count_ones()
}
