ghost use Rattle.std.specs.Prelude.{◌≡◌, ◌≤◌, ◌&&◌, None, length, nat_le, true, IfOk};
ghost use Rattle.disclosure_rules.specs.declared.fact.Fact.TheVariants as fact;
ghost use Rattle.disclosure_rules.specs.Policy.{first_rule};
ghost use Rattle.movement.specs.Movement.{IsSection, boards_of, has_board};
ghost use Rattle.session_queries.specs.Reading.{shown_analysis};
ghost use Rattle.session_queries.specs.Shown.{shown};
ghost use Rattle.session_state.specs.SessionState.{AreLive};
ghost use Rattle.published_view.specs.Listing.{facts_for, is_listed, listed_from, outcome_of, outcomes_of, tricks_shown};

use crate::shown_state::ShownState;
use disclosure_rules::{Fact, Marks, Viewer, decide};
use query_filter::{BoardFacts, Filter, TrickTable};
use scoring::Outcome;
use session_queries::{analysis_of, push_found};
use session_state::State;
use standings::{CellResult, TableResult};
use std::alloc::{AllocError, Global};
use table_terms::Items;

/// The boards from one on that are listed.
pub(crate) fn listed_from<S: ShownState>(
    alloc: Global,
    shown_state: &S,
    viewer: &Viewer,
    filter: &Option<Filter>,
    from: u8,
) -> Result<Vec<u8>, AllocError>
    ensures { IfOk result (λ boards. boards.items ≡
        listed_from (S.seen shown_state.now).public.movement
        (shown (S.seen shown_state.now) viewer.now) filter.now from) }
{
    let last = shown_state.whole().public().movement.boards();
    let mut boards = Vec::new(alloc);
    for before in 0..last {
        let board = before + 1;
        let listed = is_listed_from(alloc, shown_state, viewer, filter, from, board)?;
        push_found(&mut boards, listed.then_some(board))?;
    }
    Ok(boards)
}

/// Whether a board is listed among those from one on.
fn is_listed_from<S: ShownState>(
    alloc: Global,
    shown_state: &S,
    viewer: &Viewer,
    filter: &Option<Filter>,
    from: u8,
    board: u8,
) -> Result<bool, AllocError>
    requires section { IsSection (S.seen shown_state.now).public.movement }
    requires there { has_board (S.seen shown_state.now).public.movement board ≡ true }
    requires dealt { boards_of (S.seen shown_state.now).public.movement ≤ length (S.seen shown_state.now).deals }
    requires live { AreLive (S.seen shown_state.now).public.live (S.seen shown_state.now).cells }
    ensures { IfOk result (λ listed. listed ≡ (nat_le from board
        && is_listed (S.seen shown_state.now).public.movement
        (shown (S.seen shown_state.now) viewer.now) filter.now board)) }
{
    if board < from {
        return Ok(false);
    }
    is_listed(alloc, shown_state, viewer, filter, board)
}

/// Whether a board is listed.
fn is_listed<S: ShownState>(
    alloc: Global,
    shown_state: &S,
    viewer: &Viewer,
    filter: &Option<Filter>,
    board: u8,
) -> Result<bool, AllocError>
    requires section { IsSection (S.seen shown_state.now).public.movement }
    requires there { has_board (S.seen shown_state.now).public.movement board ≡ true }
    requires dealt { boards_of (S.seen shown_state.now).public.movement ≤ length (S.seen shown_state.now).deals }
    requires live { AreLive (S.seen shown_state.now).public.live (S.seen shown_state.now).cells }
    ensures { IfOk result (λ listed. listed ≡
        is_listed (S.seen shown_state.now).public.movement
        (shown (S.seen shown_state.now) viewer.now) filter.now board) }
{
    if !shown_state.shows(viewer, board) {
        return Ok(false);
    }
    passes(alloc, shown_state, viewer, filter, board)
}

/// Whether a filter holds of a board whose hands the user is shown; without a filter each of these is listed.
fn passes<S: ShownState>(
    alloc: Global,
    shown_state: &S,
    viewer: &Viewer,
    filter: &Option<Filter>,
    board: u8,
) -> Result<bool, AllocError>
    requires section { IsSection (S.seen shown_state.now).public.movement }
    requires there { has_board (S.seen shown_state.now).public.movement board ≡ true }
    requires allowed { first_rule (S.seen shown_state.now).public viewer.now (fact.Hands board) ≡ None }
    requires dealt { boards_of (S.seen shown_state.now).public.movement ≤ length (S.seen shown_state.now).deals }
    requires live { AreLive (S.seen shown_state.now).public.live (S.seen shown_state.now).cells }
    ensures { IfOk result (λ listed. listed ≡
        is_listed (S.seen shown_state.now).public.movement
        (shown (S.seen shown_state.now) viewer.now) filter.now board) }
{
    let marks = shown_state.whole().marks(board);
    match filter {
        None => Ok(true),
        Some(filter) => {
            let facts = facts_for(alloc, shown_state, viewer, board, marks)?;
            Ok(filter.holds(&facts))
        }
    }
}

/// What is shown of a board with these marks, for a filter.
fn facts_for<S: ShownState>(
    alloc: Global,
    shown_state: &S,
    viewer: &Viewer,
    board: u8,
    marks: Marks,
) -> Result<BoardFacts, AllocError>
    requires section { IsSection (S.seen shown_state.now).public.movement }
    requires there { has_board (S.seen shown_state.now).public.movement board ≡ true }
    requires live { AreLive (S.seen shown_state.now).public.live (S.seen shown_state.now).cells }
    requires allowed { first_rule (S.seen shown_state.now).public viewer.now (fact.Hands board) ≡ None }
    ensures { IfOk result (λ facts. facts ≡
        facts_for (S.seen shown_state.now).public.movement (shown (S.seen shown_state.now) viewer.now) board marks) }
{
    let results = shown_state.results(alloc, viewer, board)?;
    let outcomes = outcomes_of(alloc, &results)?;
    Ok(BoardFacts {
        vulnerability: marks.vulnerability,
        dealer: marks.dealer,
        outcomes: Items::new(outcomes),
        tricks: tricks_shown(shown_state.whole(), viewer, board),
    })
}

/// The double-dummy tricks of a board, where the user may see them and they are there.
#[tactic(auto, using(crate::proofs::AnswerLemmas::tricks_hidden, crate::proofs::AnswerLemmas::tricks_free))]
fn tricks_shown(state: &State, viewer: &Viewer, board: u8) -> Option<TrickTable>
    requires section { IsSection state.now.public.movement }
    requires there { has_board state.now.public.movement board ≡ true }
    ensures { result ≡ tricks_shown (shown_analysis (shown state.now viewer.now) board) }
{
    if decide(state.public(), viewer, Fact::Analysis(board)).is_some() {
        return None;
    }
    analysis_of(state, board)
}

/// The outcomes of the results that were played.
fn outcomes_of(alloc: Global, results: &[TableResult]) -> Result<Vec<Outcome>, AllocError>
    ensures { IfOk result (λ outcomes. outcomes.items ≡ outcomes_of results.now) }
{
    let mut outcomes = Vec::with_capacity(alloc, results.len())?;
    for found in results {
        push_found(&mut outcomes, outcome_of(found.result))?;
    }
    Ok(outcomes)
}

/// The outcome of a result, if it was played.
fn outcome_of(found: CellResult) -> Option<Outcome>
    ensures { result ≡ outcome_of found }
{
    match found {
        CellResult::Confirmed(outcome) => Some(outcome),
        CellResult::Ruled { .. } => None,
    }
}
