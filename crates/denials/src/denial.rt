ghost use Rattle.std.specs.Prelude.{◌≡◌};
ghost use Rattle.denials.specs.Evidence.{explanation};

use disclosure_rules::Rule;
use session_roles::Edition;

/// Why a user is denied a fact.
#[derive(Clone, Copy, PartialEq, Eq)]
pub struct Denial {
    /// The first rule that forbids the fact.
    pub rule: Rule,
    /// The board that the fact is of, from 1, or 0 where the rule isn't about a board.
    pub board: u8,
    /// The table that the rule names, from 1, or 0 where it names none.
    pub table: u8,
    /// The edition of the policy, by which the rule has its number.
    pub edition: Edition,
}

/// What the user is told.
pub fn explain(denial: Denial) -> &'static str
    ensures { result.now ≡ explanation denial.rule }
{
    match denial.rule {
        Rule::NoAccount => "no such account",
        Rule::NotAMember => "not a member",
        Rule::AccountsAreClosed => "accounts are for administrators and directors",
        Rule::SessionIsEmbargoed => "the session is under embargo",
        Rule::BoardIsHeld => "the board is held",
        Rule::StillToPlay => "your pair has still to play this board",
        Rule::OthersStillPlay => "the board isn't complete and you don't play it",
        Rule::NeitherContestantNorSpectator => "neither a contestant nor a spectator",
        Rule::BoardIsIncomplete => "the board isn't complete",
        Rule::AnalysisWaits => "analysis waits until the board is complete",
        Rule::PlayWaits => "the play of others waits until the session is closed",
        Rule::ReasonIsForThePairs => "reasons are for the pairs concerned",
        Rule::NoResult => "there is no result here",
    }
}
