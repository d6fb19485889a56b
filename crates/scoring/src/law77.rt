ghost use Rattle.std.specs.Prelude.{◌≡◌, ◌≤◌, ◌+◌, pos, neg_ℤ, ◌≤ℤ◌};
ghost use Rattle.scoring.specs.Law77.{score_of, ns_score_of, undertricks, made_score, overtrick, trick_score, slam, game_or_partscore, doubled_contract};

use crate::contract::Contract;
use crate::doubling::Doubling;
use crate::outcome::Outcome;
use crate::tricks::Tricks;
use table_terms::{Side, Strain, Vulnerability};

/// What a contract scores for declarer's side, in points (Law 77); below 0, the opponents score. `vulnerable` is
/// whether declarer's side is.
pub fn score(contract: Contract, vulnerable: bool, tricks: Tricks) -> i32
    ensures value { result ≡ score_of contract vulnerable tricks }
    ensures least { neg_ℤ (pos 7600) ≤ℤ result }
    ensures most { result ≤ℤ pos 3160 }
{
    let needed = 6 + contract.level.number();
    let tricks = tricks.number();
    if needed <= tricks {
        i32::from(made_points(&contract, vulnerable, tricks - needed))
    } else {
        -i32::from(set_points(contract.doubling, vulnerable, needed - tricks))
    }
}

/// What a board scores for North-South, in points (Law 77): 0 if all four players passed. `vulnerability` is the
/// board's.
pub fn ns_score(outcome: Outcome, vulnerability: Vulnerability) -> i32
    ensures { result ≡ ns_score_of outcome vulnerability }
{
    match outcome {
        Outcome::PassedOut => 0,
        Outcome::Played { contract, tricks } => {
            let side = contract.declarer.side();
            let points = score(contract, vulnerability.applies_to(side), tricks);
            match side {
                Side::NorthSouth => points,
                Side::EastWest => -points,
            }
        }
    }
}

#[tactic(auto, using(crate::proofs::MadeLemmas::made_score_most))]
fn made_points(contract: &Contract, vulnerable: bool, overtricks: u8) -> u16
    requires least { 1 ≤ contract.now.level }
    requires most { contract.now.level + overtricks ≤ 7 }
    ensures value { result ≡ made_score contract.now vulnerable overtricks }
    ensures most { result ≤ 3160 }
{
    let tricks = trick_points(contract);
    let premiums = premium_points(contract, vulnerable, tricks);
    tricks + premiums + u16::from(overtricks) * overtrick_points(contract, vulnerable)
}

fn trick_points(contract: &Contract) -> u16
    ensures value { result ≡ trick_score contract.now }
    ensures most { result ≤ 880 }
{
    let level = u16::from(contract.level.number());
    let undoubled = match contract.strain {
        Strain::Clubs | Strain::Diamonds => 20 * level,
        Strain::Hearts | Strain::Spades => 30 * level,
        Strain::NoTrump => 30 * level + 10,
    };
    match contract.doubling {
        Doubling::Undoubled => undoubled,
        Doubling::Doubled => 2 * undoubled,
        Doubling::Redoubled => 4 * undoubled,
    }
}

fn overtrick_points(contract: &Contract, vulnerable: bool) -> u16
    ensures value { result ≡ overtrick vulnerable contract.now.strain contract.now.doubling }
    ensures most { result ≤ 400 }
{
    match (contract.doubling, contract.strain) {
        (Doubling::Undoubled, Strain::Clubs | Strain::Diamonds) => 20,
        (Doubling::Undoubled, _) => 30,
        (Doubling::Doubled, _) => if vulnerable { 200 } else { 100 },
        (Doubling::Redoubled, _) => if vulnerable { 400 } else { 200 },
    }
}

fn premium_points(contract: &Contract, vulnerable: bool, trick_points: u16) -> u16
    ensures value { result ≡ slam vulnerable contract.now.level
        + game_or_partscore vulnerable trick_points
        + doubled_contract contract.now.doubling }
    ensures most { result ≤ 2100 }
{
    let slam = match (contract.level.number(), vulnerable) {
        (6, false) => 500,
        (6, true) => 750,
        (7, false) => 1000,
        (7, true) => 1500,
        _ => 0,
    };
    let game = match (trick_points >= 100, vulnerable) {
        (false, _) => 50,
        (true, false) => 300,
        (true, true) => 500,
    };
    let doubled = match contract.doubling {
        Doubling::Undoubled => 0,
        Doubling::Doubled => 50,
        Doubling::Redoubled => 100,
    };
    slam + game + doubled
}

#[tactic(auto, using(crate::proofs::UndertrickLemmas::undoubled_undertricks, crate::proofs::UndertrickLemmas::undoubled_undertricks_vulnerable, crate::proofs::UndertrickLemmas::redoubled_undertricks))]
fn set_points(doubling: Doubling, vulnerable: bool, count: u8) -> u16
    requires least { 1 ≤ count }
    requires most { count ≤ 13 }
    ensures value { result ≡ undertricks vulnerable doubling count }
    ensures most { result ≤ 7600 }
{
    let count = u16::from(count);
    match doubling {
        Doubling::Undoubled => if vulnerable { 100 * count } else { 50 * count },
        Doubling::Doubled => doubled_set_points(vulnerable, count),
        Doubling::Redoubled => 2 * doubled_set_points(vulnerable, count),
    }
}

#[tactic(auto, using(crate::proofs::UndertrickLemmas::doubled_undertricks_early, crate::proofs::UndertrickLemmas::doubled_undertricks_late, crate::proofs::UndertrickLemmas::doubled_undertricks_vulnerable))]
fn doubled_set_points(vulnerable: bool, count: u16) -> u16
    requires least { 1 ≤ count }
    requires most { count ≤ 13 }
    ensures value { result ≡ undertricks vulnerable Doubling.Doubled count }
    ensures most { result ≤ 3800 }
{
    if vulnerable {
        300 * count - 100
    } else if count <= 3 {
        200 * count - 100
    } else {
        300 * count - 400
    }
}
