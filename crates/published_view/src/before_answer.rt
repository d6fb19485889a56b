//! What comes before an answer.

ghost use Rattle.std.specs.Prelude.{◌≡◌, true, None, IfNone};
ghost use Rattle.disclosure_rules.specs.Policy.{first_rule};
ghost use Rattle.movement.specs.Movement.{IsSection};
ghost use Rattle.session_queries.specs.Query.{no_such_place};
ghost use Rattle.published_view.specs.Reply.{before_answer};
ghost use Rattle.session_queries.specs.Facts.{has_place};

use denials::deny;
use disclosure_rules::{Fact, Public, Viewer};
use movement::Movement;
use session_queries::Body;
use session_state::has_cell;

/// What comes before an answer that a fact decides, if anything does.
#[tactic(auto, unfolding(crate::specs::Reply::before_answer))]
pub(crate) fn before_answer(
    public: &Public,
    version: usize,
    viewer: &Viewer,
    asked: Fact,
    since: u64,
) -> Option<Body>
    ensures body { result ≡ before_answer public.now version viewer.now asked since }
    ensures place { IfNone result (has_place public.now.movement asked ≡ true) }
    ensures allowed { IfNone result (first_rule public.now viewer.now asked ≡ None) }
    ensures section { IfNone result (IsSection public.now.movement) }
{
    if !has_place(&public.movement, asked) {
        return Some(no_such_place(asked));
    }
    if (version as u64) < since {
        return Some(Body::Behind);
    }
    match deny(public, viewer, asked) {
        Some(denial) => Some(Body::Denied(denial)),
        None => None,
    }
}

/// Whether the movement has what a fact belongs to.
#[tactic(auto, using(crate::proofs::PlaceLemmas::place_is))]
fn has_place(movement: &Movement, asked: Fact) -> bool
    ensures place { result ≡ has_place movement.now asked }
    ensures section { IsSection movement.now }
{
    let last = movement.boards();
    match asked {
        Fact::Public | Fact::Accounts => true,
        Fact::Hands(board) | Fact::Analysis(board) => 1 <= board && board <= last,
        Fact::Result(cell) | Fact::Play(cell) | Fact::Cost(cell) | Fact::Reason(cell) => {
            has_cell(movement, cell)
        }
    }
}

/// What is answered where the movement hasn't what a fact belongs to.
fn no_such_place(asked: Fact) -> Body
    ensures { result ≡ no_such_place asked }
{
    match asked {
        Fact::Public | Fact::Accounts | Fact::Hands(_) | Fact::Analysis(_) => Body::NoSuchBoard,
        Fact::Result(_) | Fact::Play(_) | Fact::Cost(_) | Fact::Reason(_) => Body::NoSuchCell,
    }
}
