ghost use Rattle.std.specs.Prelude.{◌≡◌, ◌<◌, suc, None};
ghost use Rattle.par.specs.Auction.{HasTricks, is_more_for, choice, others_choose, better_bid, bid_out};
ghost use Rattle.par.specs.BestBids.{no_bids, bid_of, with_lower, best_bids};

use crate::bid::bid_out;
use crate::par::Par;
use query_filter::TrickTable;
use table_terms::{Place, Side, Vulnerability};

/// What each player's best bid comes to, if one is left.
#[derive(Clone, Copy)]
pub struct BestBids {
    north: Option<Par>,
    east: Option<Par>,
    south: Option<Par>,
    west: Option<Par>,
}

impl BestBids {
    /// No bid is left.
    pub fn none() -> BestBids
        ensures { result ≡ no_bids }
    {
        BestBids {
            north: None,
            east: None,
            south: None,
            west: None,
        }
    }

    /// What a player's best bid comes to.
    pub fn of(&self, player: Place) -> &Option<Par>
        ensures { result.now ≡ bid_of self.now player }
    {
        match player {
            Place::North => &self.north,
            Place::East => &self.east,
            Place::South => &self.south,
            Place::West => &self.west,
        }
    }

    #[tactic(auto, unfolding(crate::specs::BestBids::with_lower))]
    /// The same where one more bid is left, which those before outrank.
    pub fn with_lower(
        &self,
        table: &TrickTable,
        vulnerability: Vulnerability,
        higher: u8,
    ) -> BestBids
        requires bid { higher < 35 }
        requires tricks { HasTricks table.now }
        ensures { result ≡ with_lower table.now vulnerability higher self.now }
    {
        BestBids {
            north: Some(self.better_bid(table, vulnerability, higher, Place::North)),
            east: Some(self.better_bid(table, vulnerability, higher, Place::East)),
            south: Some(self.better_bid(table, vulnerability, higher, Place::South)),
            west: Some(self.better_bid(table, vulnerability, higher, Place::West)),
        }
    }

    // What the best of a player's bids comes to, this one among them.
    fn better_bid(
        &self,
        table: &TrickTable,
        vulnerability: Vulnerability,
        higher: u8,
        player: Place,
    ) -> Par
        requires bid { higher < 35 }
        requires tricks { HasTricks table.now }
        ensures { result ≡ better_bid player (bid_of self.now player)
            (others_choose (bid_of self.now) player (bid_out table.now vulnerability higher player)) }
    {
        let bid = self.others_choose(player, bid_out(table, vulnerability, higher, player));
        match self.of(player) {
            None => bid,
            Some(best) => choice(player, *best, &Some(bid)),
        }
    }

    /// What follows where the other three players choose in turn.
    pub fn others_choose(&self, player: Place, pass: Par) -> Par
        ensures { result ≡ others_choose (bid_of self.now) player pass }
    {
        let first = player.left();
        let second = first.left();
        let third = second.left();
        let pass = choice(third, pass, self.of(third));
        let pass = choice(second, pass, self.of(second));
        choice(first, pass, self.of(first))
    }
}

#[tactic(auto, unfolding(crate::specs::Auction::choice))]
/// What a player chooses: the bid only to gain by it.
pub fn choice(player: Place, pass: Par, bid: &Option<Par>) -> Par
    ensures { result ≡ choice player pass bid.now }
{
    match bid {
        Some(bid) if is_more_for(player.side(), bid, &pass) => *bid,
        _ => pass,
    }
}

#[tactic(auto, unfolding(crate::specs::Auction::is_more_for))]
fn is_more_for(side: Side, one: &Par, other: &Par) -> bool
    ensures { result ≡ is_more_for side one.now other.now }
{
    match side {
        Side::NorthSouth => other.score < one.score,
        Side::EastWest => one.score < other.score,
    }
}
