ghost use Rattle.std.specs.Prelude.{◌≡◌, ◌↔◌, IsTrue, Some};
ghost use Rattle.denials.specs.Evidence.{table_of_pair, own_table, is_awaited, awaited_table, denied_table};
ghost use Rattle.denials.specs.Evidence.{table_named, board_named, denial_by, denial_of};

use crate::denial::Denial;
use disclosure_rules::{Fact, Public, Rule, Seat, Viewer, decide};
use movement::Movement;
use table_terms::Pair;

/// Why the fact is denied to the user, if it is.
#[tactic(auto, unfolding(crate::specs::Evidence::denial_of))]
pub fn deny(public: &Public, viewer: &Viewer, fact: Fact) -> Option<Denial>
    ensures { result ≡ denial_of public.now viewer.now fact }
{
    let rule = decide(public, viewer, fact)?;
    Some(denial_by(public, &viewer.seat, fact, rule))
}

/// Whether this is why the fact is denied to the user.
pub fn check(public: &Public, viewer: &Viewer, fact: Fact, denial: Denial) -> bool
    ensures { IsTrue result ↔ (denial_of public.now viewer.now fact ≡ Some denial) }
{
    deny(public, viewer, fact) == Some(denial)
}

/// The denial of a fact by a rule, with its evidence.
fn denial_by(public: &Public, seat: &Option<Seat>, fact: Fact, rule: Rule) -> Denial
    ensures { result ≡ denial_by public.now seat.now fact rule }
{
    Denial {
        rule,
        board: board_named(rule, fact),
        table: table_named(rule, public, seat, fact),
        edition: public.edition,
    }
}

/// The board that the rule names.
fn board_named(rule: Rule, fact: Fact) -> u8
    ensures { result ≡ board_named rule fact }
{
    match rule {
        Rule::NoAccount | Rule::NotAMember | Rule::AccountsAreClosed => 0,
        Rule::SessionIsEmbargoed
        | Rule::BoardIsHeld
        | Rule::StillToPlay
        | Rule::OthersStillPlay
        | Rule::NeitherContestantNorSpectator
        | Rule::BoardIsIncomplete
        | Rule::AnalysisWaits
        | Rule::PlayWaits
        | Rule::ReasonIsForThePairs
        | Rule::NoResult => fact.board().unwrap_or(0),
    }
}

/// The table that the rule names.
fn table_named(rule: Rule, public: &Public, seat: &Option<Seat>, fact: Fact) -> u8
    ensures { result ≡ table_named rule public.now seat.now fact }
{
    let board = fact.board().unwrap_or(0);
    match rule {
        Rule::NoAccount | Rule::NotAMember | Rule::AccountsAreClosed => 0,
        Rule::SessionIsEmbargoed | Rule::BoardIsHeld | Rule::NeitherContestantNorSpectator => 0,
        Rule::StillToPlay => own_table(&public.movement, seat, board),
        Rule::OthersStillPlay | Rule::BoardIsIncomplete | Rule::AnalysisWaits => {
            awaited_table(public, board)
        }
        Rule::PlayWaits | Rule::ReasonIsForThePairs | Rule::NoResult => denied_table(fact),
    }
}

/// The table where the user plays the board, or 0.
fn own_table(movement: &Movement, seat: &Option<Seat>, board: u8) -> u8
    ensures { result ≡ own_table movement.now seat.now board }
{
    match seat {
        Some(seat) => table_of_pair(movement, seat.pair, board),
        None => 0,
    }
}

/// The table where the pair plays the board, or 0 where it doesn't play it.
fn table_of_pair(movement: &Movement, pair: Pair, board: u8) -> u8
    ensures { result ≡ table_of_pair movement.now pair board }
{
    match movement.cell_of(pair, board) {
        Some(cell) => cell.table,
        None => 0,
    }
}

/// The least table from which a result on the board is awaited, or 0 where there is none.
fn awaited_table(public: &Public, board: u8) -> u8
    ensures { result ≡ awaited_table public.now.movement public.now.live board }
{
    for below in 0..public.movement.tables() {
        if is_awaited(public, below + 1, board) {
            return below + 1;
        }
    }
    0
}

/// Whether the table is scheduled to play the board and has no result on it.
fn is_awaited(public: &Public, table: u8, board: u8) -> bool
    ensures { result ≡ is_awaited public.now.movement public.now.live board table }
{
    match public.movement.cell(table, board) {
        Some(cell) => !public.live.contains(cell),
        None => false,
    }
}

/// The table that the fact belongs to, or 0.
fn denied_table(fact: Fact) -> u8
    ensures { result ≡ denied_table fact }
{
    match fact.cell() {
        Some(cell) => cell.table,
        None => 0,
    }
}
