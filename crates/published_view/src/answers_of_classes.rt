//! The two answers that are read from what is kept of a user's class; all others are read from the state.
ghost use Rattle.std.specs.Prelude.{◌≡◌, true, Some, None, IfOk};
ghost use Rattle.disclosure_rules.specs.Policy.{first_rule};
ghost use Rattle.movement.specs.Movement.{IsSection};
ghost use Rattle.session_queries.specs.Facts.{has_place};
ghost use Rattle.session_queries.specs.Query.{fact_of};
ghost use Rattle.session_queries.specs.Shown.{shown};
ghost use Rattle.published_view.specs.Answers.{answer_from, ranking_by};

use crate::answers_of_state::{answer_from_state, list};
use class_views::ClassViews;
use disclosure_rules::Viewer;
use session_queries::{Body, Query};
use standings::ranked;
use std::alloc::{AllocError, Global};
use table_terms::Items;

/// The answer to a query, from what the user is shown of a state.
#[tactic(auto, using(crate::proofs::AnswerLemmas::list_answered, crate::proofs::AnswerLemmas::ranking_answered))]
pub(crate) fn answer_from_classes(
    alloc: Global,
    views: &ClassViews,
    viewer: &Viewer,
    query: &Query,
) -> Result<Body, AllocError>
    requires section { IsSection views.now.public.movement }
    requires place { has_place views.now.public.movement (fact_of query.now) ≡ true }
    requires allowed { first_rule views.now.public viewer.now (fact_of query.now) ≡ None }
    ensures { IfOk result (λ found. found ≡ answer_from query.now (shown views.now viewer.now)) }
{
    match query {
        Query::List {
            filter,
            from,
            limit,
        } => list(alloc, views, viewer, filter, *from, *limit),
        Query::Ranking => ranking(alloc, views, viewer),
        _ => answer_from_state(alloc, views.state(), viewer, query),
    }
}

/// The ranking over what the user is shown.
fn ranking(alloc: Global, views: &ClassViews, viewer: &Viewer) -> Result<Body, AllocError>
    ensures { IfOk result (λ found. found ≡ ranking_by (shown views.now viewer.now) (Some views.now.public)) }
{
    let totals = views.standings(alloc, viewer)?;
    let standings = ranked(alloc, &totals)?;
    Ok(Body::Ranking {
        standings: Items::new(standings),
    })
}
