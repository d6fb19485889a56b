ghost use Rattle.std.specs.Prelude.{◌≡◌, SomeIff};
ghost use Rattle.par.specs.Auction.{HasTricks, passed_out, par_of};
ghost use Rattle.par.specs.FewTricks.{are_few, all_few};

use crate::best_bids::{BestBids, choice};
use crate::par::Par;
use query_filter::{StrainTricks, TrickTable};
use scoring::Outcome;
use table_terms::{Place, Vulnerability};

// How many bids there are.
const BIDS: u8 = 35;

/// A board's par: how it ends, and what it scores for North-South, where all four players know how many tricks each would
/// take as declarer in each strain. Nothing where one of the twenty numbers is over 13, which no deal has.
pub fn par_of_board(table: &TrickTable, vulnerability: Vulnerability, dealer: Place) -> Option<Par>
    ensures { SomeIff result (HasTricks table.now) (par_of table.now vulnerability dealer) }
{
    if all_few(table) {
        Some(auction(table, vulnerability, dealer))
    } else {
        None
    }
}

// From the highest bid down, what each player's best bid comes to; then the calls from the dealer on.
fn auction(table: &TrickTable, vulnerability: Vulnerability, dealer: Place) -> Par
    requires { HasTricks table.now }
    ensures { result ≡ par_of table.now vulnerability dealer }
{
    let mut best = BestBids::none();
    for higher in 0..BIDS {
        best = best.with_lower(table, vulnerability, higher);
    }
    let pass = best.others_choose(dealer, passed_out());
    choice(dealer, pass, best.of(dealer))
}

fn passed_out() -> Par
    ensures { result ≡ passed_out }
{
    Par {
        score: 0,
        outcome: Outcome::PassedOut,
    }
}

#[tactic(auto, unfolding(crate::specs::FewTricks::all_few))]
fn all_few(table: &TrickTable) -> bool
    ensures { result ≡ all_few table.now }
{
    are_few(table.spades)
        && are_few(table.hearts)
        && are_few(table.diamonds)
        && are_few(table.clubs)
        && are_few(table.no_trump)
}

fn are_few(tricks: StrainTricks) -> bool
    ensures { result ≡ are_few tricks }
{
    tricks.north <= 13 && tricks.east <= 13 && tricks.south <= 13 && tricks.west <= 13
}
