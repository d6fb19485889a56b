//! What a list is read from: a state alone, or a state beside what is kept of what its users are shown.
ghost use Rattle.std.specs.Prelude.{◌≡◌, true, None, IfOk, is_none};
ghost use Rattle.disclosure_rules.specs.declared.fact.Fact.TheVariants as fact;
ghost use Rattle.disclosure_rules.specs.Policy.{first_rule};
ghost use Rattle.movement.specs.Movement.{IsSection, has_board};
ghost use Rattle.session_queries.specs.Reading.{shown_results};
ghost use Rattle.session_queries.specs.Shown.{shown};
ghost use Rattle.session_state.specs.SessionState.{AreLive};

use class_views::ClassViews;
use disclosure_rules::{Fact, Viewer, decide};
use movement::Movement;
use session_queries::{put_results, shown_results};
use session_state::State;
use standings::TableResult;
use std::alloc::{AllocError, Global};

/// A state of which each user is shown what the policy allows.
pub(crate) trait ShownState {
    ghost use Rattle.session_state.specs.SessionState.{SessionState};

    ghost seen: { Self → SessionState };

    /// The whole state, hidden facts among it.
    fn whole(&self) -> &State
        ensures { result.now ≡ seen self.now };

    /// Whether a user is shown the hands of a board.
    fn shows(&self, viewer: &Viewer, board: u8) -> bool
        requires { has_board (seen self.now).public.movement board ≡ true }
        ensures { result ≡ is_none (first_rule (seen self.now).public viewer.now (fact.Hands board)) };

    /// The results that a user is shown on a board whose hands the user is shown.
    fn results(
        &self,
        alloc: Global,
        viewer: &Viewer,
        board: u8,
    ) -> Result<Vec<TableResult>, AllocError>
        requires section { IsSection (seen self.now).public.movement }
        requires live { AreLive (seen self.now).public.live (seen self.now).cells }
        requires allowed { first_rule (seen self.now).public viewer.now (fact.Hands board) ≡ None }
        ensures { IfOk result (λ results. results.items ≡
            shown_results (seen self.now).public.movement (shown (seen self.now) viewer.now) board) };
}

/// The policy is asked, of a board and of each of its results.
impl ShownState for State {
    ghost seen = { λ state. state };

    fn whole(&self) -> &State {
        self
    }

    fn shows(&self, viewer: &Viewer, board: u8) -> bool {
        decide(self.public(), viewer, Fact::Hands(board)).is_none()
    }

    fn results(
        &self,
        alloc: Global,
        viewer: &Viewer,
        board: u8,
    ) -> Result<Vec<TableResult>, AllocError> {
        let results = shown_results(alloc, self, viewer, board)?;
        Ok(results)
    }
}

/// The policy isn't asked: a board is shown to a class of users, and then so are its results.
impl ShownState for ClassViews {
    ghost seen = { λ views. views };

    fn whole(&self) -> &State {
        self.state()
    }

    fn shows(&self, viewer: &Viewer, board: u8) -> bool {
        self.sees(viewer, board)
    }

    #[tactic(auto, using(crate::proofs::ShownStateLemmas::results_alike))]
    fn results(
        &self,
        alloc: Global,
        viewer: &Viewer,
        board: u8,
    ) -> Result<Vec<TableResult>, AllocError> {
        let mut results = Vec::with_capacity(alloc, Movement::MOST_TABLES as usize)?;
        put_results(self.state(), board, &mut results);
        Ok(results)
    }
}
