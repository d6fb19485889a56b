//! What contracts score, against another scorer.

use super::figures::{Figures, MAJOR, MINOR, NO_TRUMP};
use scoring::{Contract, Doubling, Level, Tricks, score};
use table_terms::{Place, Strain};

fn figures_of(strain: Strain) -> &'static Figures {
    match strain {
        Strain::Clubs | Strain::Diamonds => &MINOR,
        Strain::Hearts | Strain::Spades => &MAJOR,
        Strain::NoTrump => &NO_TRUMP,
    }
}

/// The score of this contract of North's, if there are such a level and so many tricks.
fn scored(
    strain: Strain,
    level: u8,
    doubling: Doubling,
    vulnerable: bool,
    tricks: u8,
) -> Option<i32> {
    let contract = Contract {
        level: Level::new(level)?,
        strain,
        declarer: Place::North,
        doubling,
    };
    Some(score(contract, vulnerable, Tricks::new(tricks)?))
}

static DOUBLINGS: [Doubling; 3] = [Doubling::Undoubled, Doubling::Doubled, Doubling::Redoubled];

/// Whether a case scores as another scorer has it. Its number counts the tricks first, then levels, vulnerable or not,
/// doublings and strains.
fn is_as_figured(case: usize) -> bool {
    let strain = Strain::ALL[case / 588 % 5];
    let doubled = case / 196 % 3;
    let vulnerable = case / 98 % 2;
    let level = case / 14 % 7;
    let tricks = case % 14;
    let want = figures_of(strain)[doubled][vulnerable][level][tricks];
    let doubling = DOUBLINGS[doubled];
    scored(
        strain,
        level as u8 + 1,
        doubling,
        vulnerable == 1,
        tricks as u8,
    ) == Some(want)
}

#[test]
fn every_contract_scores_as_another_scorer_has_it(rt: HostRuntime) {
    for case in 0..2_940 {
        assert!(rt; is_as_figured(case));
    }
}
