ghost use Rattle.std.specs.Prelude.{◌≡◌};
ghost use Rattle.session_roles.specs.declared.edition.Edition.TheVariants.{First};
ghost use Rattle.disclosure_rules.specs.Policy.{rule_number};

use session_roles::Edition;

/// The rules of the policy, in their order. Each forbids a fact to some users.
#[derive(Clone, Copy, PartialEq, Eq)]
pub enum Rule {
    NoAccount,
    NotAMember,
    AccountsAreClosed,
    SessionIsEmbargoed,
    BoardIsHeld,
    StillToPlay,
    OthersStillPlay,
    NeitherContestantNorSpectator,
    BoardIsIncomplete,
    AnalysisWaits,
    PlayWaits,
    ReasonIsForThePairs,
    NoResult,
}

impl Rule {
    /// The rules, in their order.
    pub const ALL: [Rule; 13] = [
        Rule::NoAccount,
        Rule::NotAMember,
        Rule::AccountsAreClosed,
        Rule::SessionIsEmbargoed,
        Rule::BoardIsHeld,
        Rule::StillToPlay,
        Rule::OthersStillPlay,
        Rule::NeitherContestantNorSpectator,
        Rule::BoardIsIncomplete,
        Rule::AnalysisWaits,
        Rule::PlayWaits,
        Rule::ReasonIsForThePairs,
        Rule::NoResult,
    ];

    /// The rule's number in an edition of the policy, from 1, or 0 where the edition is without it.
    pub fn number(self, edition: Edition) -> u8
        ensures { result ≡ rule_number edition self }
    {
        match edition {
            Edition::First => self.first_edition_number(),
            Edition::Second => self as u8 + 1,
        }
    }

    fn first_edition_number(self) -> u8
        ensures { result ≡ rule_number First self }
    {
        match self {
            Rule::NoAccount | Rule::NotAMember | Rule::AccountsAreClosed => self as u8 + 1,
            Rule::SessionIsEmbargoed => 0,
            Rule::BoardIsHeld
            | Rule::StillToPlay
            | Rule::OthersStillPlay
            | Rule::NeitherContestantNorSpectator
            | Rule::BoardIsIncomplete
            | Rule::AnalysisWaits
            | Rule::PlayWaits
            | Rule::ReasonIsForThePairs
            | Rule::NoResult => self as u8,
        }
    }
}
