//! The answers to queries as they are read from a state, each for a user who is allowed the fact that decides it.
ghost use Rattle.std.specs.Prelude.{◌≡◌, ◌≤◌, ◌+◌, ◌-◌, ◌++◌, true, Some, None, All, IfOk, OnOk, slice_get, vec_len};
ghost use Rattle.disclosure_rules.specs.Policy.{first_rule};
ghost use Rattle.movement.specs.Movement.{IsSection, has_board, most_tables};
ghost use Rattle.session_state.specs.SessionState.{cell_at};
ghost use Rattle.session_state.specs.Readers.{seats_in_order, shown_users};
ghost use Rattle.disclosure_rules.specs.declared.fact.Fact.TheVariants as fact;
ghost use Rattle.standings.specs.Ranking.{most_results};
ghost use Rattle.session_queries.specs.declared.body.Body.TheVariants as body;
ghost use Rattle.session_queries.specs.declared.query.Query.TheVariants as query;
ghost use Rattle.published_view.specs.Answers.{answer_from, traveller_by, list_by, ranking_by, board_earnings, all_earnings};
ghost use Rattle.session_queries.specs.Query.{fact_of};
ghost use Rattle.session_queries.specs.Content.{analysis_of};
ghost use Rattle.session_queries.specs.Facts.{has_place, has_table_on};
ghost use Rattle.session_queries.specs.Shown.{shown};

use crate::listing::listed_from;
use crate::shown_state::ShownState;
use disclosure_rules::{Fact, Viewer, decide};
use movement::Cell;
use query_filter::Filter;
use rbac::{Account, Inheritance};
use session_commands::CellState;
use session_commands::room::with_room;
use session_queries::{
    Body, PublicFacts, Query, ToldNotices, analysis_of, board_par, costs_of, play_of, push_found,
    reason_of, shown_results,
};
use session_state::{Seated, State};
use standings::{Earning, add_earnings, ranking_of, traveller_rows};
use std::alloc::{AllocError, Global};
use table_terms::Items;

/// The answer to a query, from what the user is shown of a state.
#[tactic(auto, using(crate::proofs::AnswerLemmas::status_answered, crate::proofs::AnswerLemmas::board_answered, crate::proofs::AnswerLemmas::traveller_answered, crate::proofs::AnswerLemmas::analysis_answered, crate::proofs::AnswerLemmas::play_answered, crate::proofs::AnswerLemmas::costs_answered, crate::proofs::AnswerLemmas::reason_answered, crate::proofs::AnswerLemmas::list_answered, crate::proofs::AnswerLemmas::ranking_answered, crate::proofs::AnswerLemmas::accounts_answered))]
pub(crate) fn answer_from_state(
    alloc: Global,
    state: &State,
    viewer: &Viewer,
    query: &Query,
) -> Result<Body, AllocError>
    requires section { IsSection state.now.public.movement }
    requires place { has_place state.now.public.movement (fact_of query.now) ≡ true }
    requires allowed { first_rule state.now.public viewer.now (fact_of query.now) ≡ None }
    ensures { IfOk result (λ found. found ≡ answer_from query.now (shown state.now viewer.now)) }
{
    match query {
        Query::Status => status(alloc, state),
        Query::Board(number) => Ok(board(state, viewer, *number)),
        Query::Traveller(number) => traveller(alloc, state, viewer, *number),
        Query::Analysis(number) => Ok(analysis(state, *number)),
        Query::Par(number) => Ok(par(state, viewer, *number)),
        Query::Play(cell) => Ok(Body::Play {
            cell: *cell,
            cards: play_of(&known(state, *cell)),
        }),
        Query::Costs(cell) => Ok(Body::Costs {
            cell: *cell,
            costs: costs_of(&known(state, *cell)),
        }),
        Query::Reason(cell) => Ok(Body::Reason {
            cell: *cell,
            code: reason_of(&known(state, *cell)),
        }),
        Query::List {
            filter,
            from,
            limit,
        } => list(alloc, state, viewer, filter, *from, *limit),
        Query::Ranking => ranking(alloc, state, viewer),
        Query::Accounts => accounts(alloc, state),
    }
}

/// What is known of a cell of the movement.
#[tactic(auto, using(crate::proofs::AnswerLemmas::scheduled_placed))]
fn known(state: &State, cell: Cell) -> CellState
    requires section { IsSection state.now.public.movement }
    requires there { has_table_on state.now.public.movement cell ≡ true }
    ensures { result ≡ cell_at state.now cell }
{
    state.cell(cell)
}

/// What every member may see.
fn status(alloc: Global, state: &State) -> Result<Body, AllocError>
    ensures { IfOk result (λ found.
        found ≡ body.Status state.now.public (seats_in_order state.now) (shown_users state.now) state.now.notices) }
{
    let public = PublicFacts::new(alloc, state.public().copy())?;
    let seats = Items::new(seats_of(alloc, state)?);
    let names = Items::new(state.shown_users(alloc)?);
    let notices = ToldNotices::new(alloc, state.notices().copy(alloc)?)?;
    Ok(Body::Status {
        public,
        seats,
        names,
        notices,
    })
}

/// Where the users sit, in the order of the accounts.
fn seats_of(alloc: Global, state: &State) -> Result<Vec<Seated>, AllocError>
    ensures { IfOk result (λ seats. seats.items ≡ seats_in_order state.now) }
{
    let mut seats = Vec::new(alloc);
    for account in state.accounts() {
        push_found(&mut seats, state.seated(*account))?;
    }
    Ok(seats)
}

/// A board with its hands and its marks, for a user who may see them.
#[tactic(auto, using(crate::proofs::AnswerLemmas::board_answered))]
fn board(state: &State, viewer: &Viewer, number: u8) -> Body
    requires section { IsSection state.now.public.movement }
    requires there { has_board state.now.public.movement number ≡ true }
    requires allowed { first_rule state.now.public viewer.now (fact.Hands number) ≡ None }
    ensures { result ≡ answer_from (query.Board number) (shown state.now viewer.now) }
{
    Body::Board {
        number,
        deal: state.deal(number),
        marks: state.marks(number),
    }
}

/// The double-dummy table of a board, once it is solved.
fn analysis(state: &State, number: u8) -> Body
    requires section { IsSection state.now.public.movement }
    requires there { has_board state.now.public.movement number ≡ true }
    ensures { result ≡ body.Analysis number (analysis_of state.now number) }
{
    Body::Analysis {
        number,
        tricks: analysis_of(state, number),
    }
}

/// The par of a board, once it is solved, for a user who may see its analysis.
#[tactic(auto, using(crate::proofs::AnswerLemmas::par_answered))]
fn par(state: &State, viewer: &Viewer, number: u8) -> Body
    requires section { IsSection state.now.public.movement }
    requires there { has_board state.now.public.movement number ≡ true }
    requires allowed { first_rule state.now.public viewer.now (fact.Analysis number) ≡ None }
    ensures { result ≡ answer_from (query.Par number) (shown state.now viewer.now) }
{
    let marks = state.marks(number);
    Body::Par {
        number,
        par: board_par(state, number, marks),
    }
}

/// The results on a board that the user is shown.
fn traveller(alloc: Global, state: &State, viewer: &Viewer, number: u8) -> Result<Body, AllocError>
    requires section { IsSection state.now.public.movement }
    requires there { has_board state.now.public.movement number ≡ true }
    ensures { IfOk result (λ found. found ≡
        traveller_by (shown state.now viewer.now) number (Some state.now.public)
        (slice_get state.now.public.marks (number - 1))) }
{
    let vulnerability = state.marks(number).vulnerability;
    let results = shown_results(alloc, state, viewer, number)?;
    let rows = traveller_rows(alloc, &state.public().movement, vulnerability, &results)?;
    Ok(Body::Traveller {
        number,
        rows: Items::new(rows),
    })
}

/// The boards that are listed for the user.
pub(crate) fn list<S: ShownState>(
    alloc: Global,
    shown_state: &S,
    viewer: &Viewer,
    filter: &Option<Filter>,
    from: u8,
    limit: u8,
) -> Result<Body, AllocError>
    ensures { IfOk result (λ found. found ≡
        list_by (shown (S.seen shown_state.now) viewer.now) filter.now from limit
        (Some (S.seen shown_state.now).public)) }
{
    let mut boards = listed_from(alloc, shown_state, viewer, filter, from)?;
    let more = boards.len() > limit as usize;
    boards.truncate(limit as usize);
    Ok(Body::List {
        boards: Items::new(boards),
        more,
    })
}

/// The ranking over what the user is shown.
fn ranking(alloc: Global, state: &State, viewer: &Viewer) -> Result<Body, AllocError>
    ensures { IfOk result (λ found. found ≡
        ranking_by (shown state.now viewer.now) (Some state.now.public)) }
{
    let earnings = earnings_of(alloc, state, viewer)?;
    let standings = ranking_of(alloc, &state.public().movement, &earnings)?;
    Ok(Body::Ranking {
        standings: Items::new(standings),
    })
}

/// What the results of all boards earn, so far as they are shown.
fn earnings_of(alloc: Global, state: &State, viewer: &Viewer) -> Result<Vec<Earning>, AllocError>
    ensures earnings { IfOk result (λ earnings.
        earnings.items ≡ all_earnings state.now.public.movement (shown state.now viewer.now)) }
    ensures few { IfOk result (λ earnings. vec_len earnings ≤ most_results) }
{
    let mut earnings = Vec::new(alloc);
    for before in 0..state.public().movement.boards() {
        add_board(alloc, state, viewer, before + 1, &mut earnings)?;
    }
    Ok(earnings)
}

/// Adds what the results of a board earn, so far as they are shown.
fn add_board(
    alloc: Global,
    state: &State,
    viewer: &Viewer,
    number: u8,
    earnings: &mut Vec<Earning>,
) -> Result<(), AllocError>
    requires section { IsSection state.now.public.movement }
    requires there { has_board state.now.public.movement number ≡ true }
    ensures earnings { OnOk result (earnings.new.items ≡ earnings.old.items
        ++ board_earnings state.now.public.movement (shown state.now viewer.now) number) }
    ensures few { OnOk result (vec_len earnings.new ≤ vec_len earnings.old + most_tables) }
{
    let public = state.public();
    if decide(public, viewer, Fact::Hands(number)).is_some() {
        return Ok(());
    }
    let results = shown_results(alloc, state, viewer, number)?;
    let vulnerability = state.marks(number).vulnerability;
    add_earnings(alloc, &public.movement, vulnerability, &results, earnings)?;
    Ok(())
}

/// The users with their roles, and the pairs of the role hierarchy.
fn accounts(alloc: Global, state: &State) -> Result<Body, AllocError>
    ensures { IfOk result (λ found. found ≡ body.Accounts state.now.roles.accounts state.now.roles.pairs) }
{
    let users = Items::new(accounts_of(alloc, state)?);
    let pairs = Items::new(pairs_of(alloc, state)?);
    Ok(Body::Accounts { users, pairs })
}

/// The accounts, in the order in which they were added.
fn accounts_of(alloc: Global, state: &State) -> Result<Vec<Account>, AllocError>
    ensures { IfOk result (λ users. users.items ≡ state.now.roles.accounts) }
{
    let accounts = state.accounts();
    with_room(alloc, accounts, accounts.len())
}

/// The pairs of the role hierarchy, in the order in which they were added.
fn pairs_of(alloc: Global, state: &State) -> Result<Vec<Inheritance>, AllocError>
    ensures { IfOk result (λ pairs. pairs.items ≡ state.now.roles.pairs) }
{
    let mut pairs = Vec::new(alloc);
    while let Some((senior, junior)) = state.pair(pairs.len()) {
        pairs.push(Inheritance { senior, junior })?;
    }
    Ok(pairs)
}
