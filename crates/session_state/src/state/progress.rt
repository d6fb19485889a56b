//! Why a command on a held board, a round, a phase or an embargo is refused, and what it does to a state.
ghost use Rattle.std.specs.Prelude.{◌≡◌, None};
ghost use Rattle.session_state.specs.Apply.{effect};
ghost use Rattle.session_state.specs.Refusal.{are_all_live, first_cause, hindrance_of, own_causes};
ghost use Rattle.session_state.specs.SessionState.{IsKeptBoard};
ghost use Rattle.session_commands.specs.declared.command.Command.TheVariants.{Hold, Release, NextRound, Close, Finalise};
ghost use Rattle.session_commands.specs.declared.command.Command.TheVariants.{Embargo, Lift};

use crate::state::State;
use disclosure_rules::{Phase, Public};
use session_commands::Refusal;

impl State {
    pub(super) fn hold_cause(&self, board: u8) -> Option<Refusal>
        ensures { result ≡ first_cause (own_causes self.now (Hold board)) }
    {
        self.public
            .held
            .contains(board)
            .then_some(Refusal::AlreadyHeld)
    }

    // Withholds a board.
    pub(super) fn hold(&mut self, board: u8)
        requires { IsKeptBoard board }
        ensures { self.new ≡ effect self.old (Hold board) }
    {
        self.public.held.insert(board);
    }

    pub(super) fn release_cause(&self, board: u8) -> Option<Refusal>
        ensures { result ≡ first_cause (own_causes self.now (Release board)) }
    {
        (!self.public.held.contains(board)).then_some(Refusal::NotHeld)
    }

    // Withholds a board no longer.
    pub(super) fn release(&mut self, board: u8)
        requires { IsKeptBoard board }
        ensures { self.new ≡ effect self.old (Release board) }
    {
        self.public.held.remove(board);
    }

    pub(super) fn next_round_cause(&self) -> Option<Refusal>
        ensures { result ≡ first_cause (own_causes self.now NextRound) }
    {
        (self.public.round >= self.public.movement.rounds()).then_some(Refusal::NoMoreRounds)
    }

    // Starts the next round.
    pub(super) fn next_round(&mut self)
        requires { hindrance_of self.old NextRound ≡ None }
        ensures { self.new ≡ effect self.old NextRound }
    {
        let rounds = self.public.movement.rounds();
        prove!(self.public.round < rounds);
        self.public.round += 1;
    }

    // Why a phase may not end.
    pub(super) fn all_live_cause(&self) -> Option<Refusal>
        ensures close { result ≡ first_cause (own_causes self.now Close) }
        ensures finalise { result ≡ first_cause (own_causes self.now Finalise) }
    {
        (!are_all_live(&self.public)).then_some(Refusal::NotAllLive)
    }

    // Ends play.
    pub(super) fn close(&mut self)
        ensures { self.new ≡ effect self.old Close }
    {
        self.public.phase = Phase::Closed;
    }

    // Ends corrections.
    pub(super) fn finalise(&mut self)
        ensures { self.new ≡ effect self.old Finalise }
    {
        self.public.phase = Phase::Final;
    }

    pub(super) fn embargo_cause(&self) -> Option<Refusal>
        ensures { result ≡ first_cause (own_causes self.now Embargo) }
    {
        self.public.embargo.then_some(Refusal::AlreadyEmbargoed)
    }

    // Withholds every board.
    pub(super) fn embargo(&mut self)
        ensures { self.new ≡ effect self.old Embargo }
    {
        self.public.embargo = true;
    }

    pub(super) fn lift_cause(&self) -> Option<Refusal>
        ensures { result ≡ first_cause (own_causes self.now Lift) }
    {
        (!self.public.embargo).then_some(Refusal::NotEmbargoed)
    }

    // Withholds every board no longer.
    pub(super) fn lift(&mut self)
        ensures { self.new ≡ effect self.old Lift }
    {
        self.public.embargo = false;
    }
}

// Whether every table has a result on every board that it is scheduled to play.
#[tactic(auto, using(crate::proofs::CompleteLemmas::all_complete, crate::proofs::CompleteLemmas::one_incomplete))]
fn are_all_live(public: &Public) -> bool
    ensures { result ≡ are_all_live public.now }
{
    for board in 0..public.movement.boards() {
        if !public.is_complete(board + 1) {
            return false;
        }
    }
    true
}
