ghost use Rattle.std.specs.Prelude.{◌≡◌, ◌<◌, ◌≤◌};
ghost use Rattle.par.specs.Bid.{level_of_bid, strain_of};
ghost use Rattle.par.specs.Auction.{HasTricks, bid_out, doubling_at, contract_of, scored};

use crate::par::Par;
use query_filter::TrickTable;
use scoring::{Contract, Doubling, Level, Outcome, Tricks, ns_score};
use table_terms::{Place, Strain, Vulnerability};

#[tactic(auto, unfolding(crate::specs::Auction::bid_out))]
/// What a player's bid comes to, if no one bids on. So many bids outrank it.
pub fn bid_out(table: &TrickTable, vulnerability: Vulnerability, higher: u8, player: Place) -> Par
    requires bid { higher < 35 }
    requires tricks { HasTricks table.now }
    ensures { result ≡ bid_out table.now vulnerability higher player }
{
    let tricks = tricks_from(table.tricks(strain_of(higher), player));
    scored(
        vulnerability,
        Outcome::Played {
            contract: contract_of(table, higher, player),
            tricks,
        },
    )
}

// How a board ends, with what it scores.
fn scored(vulnerability: Vulnerability, outcome: Outcome) -> Par
    ensures { result ≡ scored vulnerability outcome }
{
    let mut end = Par { score: 0, outcome };
    end.score = ns_score(end.outcome, vulnerability);
    end
}

fn contract_of(table: &TrickTable, higher: u8, player: Place) -> Contract
    requires { higher < 35 }
    ensures { result ≡ contract_of table.now higher player }
{
    let level = level_of_bid(higher);
    let strain = strain_of(higher);
    Contract {
        level,
        strain,
        declarer: player,
        doubling: doubling_at(level, table.tricks(strain, player)),
    }
}

fn level_of_bid(higher: u8) -> Level
    requires { higher < 35 }
    ensures { result ≡ level_of_bid higher }
{
    let Some(level) = Level::new(7 - higher / 5) else {
        unreachable!();
    };
    level
}

fn strain_of(higher: u8) -> Strain
    ensures { result ≡ strain_of higher }
{
    match higher % 5 {
        0 => Strain::NoTrump,
        1 => Strain::Spades,
        2 => Strain::Hearts,
        3 => Strain::Diamonds,
        _ => Strain::Clubs,
    }
}

fn doubling_at(level: Level, tricks: u8) -> Doubling
    ensures { result ≡ doubling_at level tricks }
{
    if 6 + level.number() <= tricks {
        Doubling::Undoubled
    } else {
        Doubling::Doubled
    }
}

fn tricks_from(number: u8) -> Tricks
    requires { number ≤ 13 }
    ensures { result ≡ number }
{
    let Some(tricks) = Tricks::new(number) else {
        unreachable!();
    };
    tricks
}
