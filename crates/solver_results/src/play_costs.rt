ghost use Rattle.std.specs.Prelude.{◌≡◌, ◌≤◌, length};
ghost use Rattle.solver_results.specs.PlayAnswer.{answer_for_play};

use crate::play_answer::PlayAnswer;
use cards::{Card, Deal, Play};
use scoring::Contract;
use std::marker::Model;

/// What is found of a play, with its deal, its contract and its cards. Clauses see those three alone, since the type
/// keeps that the answer is theirs.
#[derive(Clone, Copy)]
pub struct PlayCosts {
    deal: Deal,
    contract: Contract,
    play: Play,
    answer: PlayAnswer,
}

impl Model for PlayCosts {
    ghost use Rattle.solver_results.specs.PlayAnswer.{PlayedDeal, played_code};
    ghost use Rattle.solver_results.specs.PlayCostsInside.{played_of, IsAnswered, inside_of, inside_of-played_of};

    ghost Value = { PlayedDeal };

    ghost coded = { played_code };

    ghost view = { played_of };

    ghost invariant = { IsAnswered };

    ghost inverse = { inside_of };

    ghost inverse_ok = { inside_of-played_of };
}

impl PlayCosts {
    /// The answer for a play, with its deal, its contract and its cards.
    pub fn new(deal: Deal, contract: Contract, play: Play, answer: PlayAnswer) -> PlayCosts
        requires { answer ≡ answer_for_play (record { deal = deal; contract = contract; play = play }) }
        ensures { result ≡ record { deal = deal; contract = contract; play = play } }
    {
        PlayCosts {
            deal,
            contract,
            play,
            answer,
        }
    }

    pub fn deal(&self) -> Deal
        ensures { result ≡ self.now.deal }
    {
        self.deal
    }

    pub fn contract(&self) -> Contract
        ensures { result ≡ self.now.contract }
    {
        self.contract
    }

    /// The cards that were played.
    pub fn play(&self) -> &[Card]
        ensures cards { result.now ≡ self.now.play }
        ensures short { length result.now ≤ 52 }
    {
        self.play.as_slice()
    }

    /// What is found of them.
    pub fn answer(&self) -> PlayAnswer
        ensures { result ≡ answer_for_play self.now }
    {
        self.answer
    }
}
