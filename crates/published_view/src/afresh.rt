//! The plain way to work out a reply, to which a view's own can be compared.

ghost use Rattle.std.specs.Prelude.{◌≡◌, None, length, IfErr, IfOk};
ghost use Rattle.session_state.specs.SessionState.{viewer_of};
ghost use Rattle.session_book.specs.Journal.{state_of};
ghost use Rattle.session_queries.specs.Query.{fact_of};
ghost use Rattle.published_view.specs.Reply.{before_answer, body_of, reply_of};

use crate::answers_of_state::answer_from_state;
use crate::before_answer::before_answer;
use session_book::Book;
use session_queries::{Body, Query, Reply};
use session_state::State;
use std::alloc::{AllocError, Global};
use user_names::Name;

/// The reply to a user's query as it is worked out afresh from the state of a book alone: no view is at hand, and so nothing
/// that one keeps. By its contract it is what a view answers that has taken in the book's journal.
pub fn answer_afresh(
    alloc: Global,
    book: &Book,
    user: Name,
    query: &Query,
    since: u64,
) -> Result<Reply, AllocError>
    ensures reply { IfOk result (λ reply.
        reply ≡ reply_of (state_of book.now) (length book.now.journal) user query.now since) }
    ensures memory { IfErr result (λ _.
        before_answer (state_of book.now).public (length book.now.journal) (viewer_of (state_of book.now) user)
        (fact_of query.now) since ≡ None) }
{
    let body = body_afresh(alloc, book.state(), book.version(), user, query, since)?;
    Ok(Reply {
        version: book.version(),
        body,
    })
}

/// What is answered to a user.
#[tactic(auto, unfolding(crate::specs::Reply::body_of))]
fn body_afresh(
    alloc: Global,
    state: &State,
    version: usize,
    user: Name,
    query: &Query,
    since: u64,
) -> Result<Body, AllocError>
    ensures body { IfOk result (λ found. found ≡ body_of state.now version user query.now since) }
    ensures memory { IfErr result (λ _.
        before_answer state.now.public version (viewer_of state.now user) (fact_of query.now) since ≡ None) }
{
    let viewer = state.viewer(user);
    match before_answer(state.public(), version, &viewer, query.fact(), since) {
        Some(body) => Ok(body),
        None => answer_from_state(alloc, state, &viewer, query),
    }
}
