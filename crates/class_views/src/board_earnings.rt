ghost use Rattle.std.specs.Prelude.{◌≡◌, ◌≤◌, [], length, IfOk};
ghost use Rattle.movement.specs.Movement.{boards_of, most_tables, IsSection};
ghost use Rattle.class_views.specs.Totals.{earnings_on};

use movement::Movement;
use session_queries::put_results;
use session_state::State;
use standings::{Earning, TableResult, put_earnings};
use std::alloc::{AllocError, Global};
use std::marker::Model;

/// What the results of a board earn, with room for those of any board; clauses see what they earn.
#[derive(Drop)]
pub(crate) struct BoardEarnings {
    results: Vec<TableResult>,
    scores: Vec<i32>,
    earnings: Vec<Earning>,
}

impl Model for BoardEarnings {
    ghost use Rattle.std.specs.Prelude.{◌≤◌, List, vec_len, vec_capacity};
    ghost use Rattle.movement.specs.Movement.{most_tables};
    ghost use Rattle.standings.specs.declared.earning.Earning.{Earning};

    ghost Value = { List Earning };

    ghost view = { λ board. board.earnings.items };

    ghost invariant = { λ board.
        (most_tables ≤ vec_capacity board.results)
        × ((most_tables ≤ vec_capacity board.scores)
        × ((most_tables ≤ vec_capacity board.earnings) × (vec_len board.earnings ≤ most_tables))) };
}

impl BoardEarnings {
    /// Of no board yet.
    pub(crate) fn open(alloc: Global) -> Result<BoardEarnings, AllocError>
        ensures { IfOk result (λ board. board ≡ []) }
    {
        let room = Movement::MOST_TABLES as usize;
        let results = Vec::with_capacity(alloc, room)?;
        let scores = Vec::with_capacity(alloc, room)?;
        let earnings = Vec::with_capacity(alloc, room)?;
        Ok(BoardEarnings {
            results,
            scores,
            earnings,
        })
    }

    /// What the results earn.
    pub(crate) fn earnings(&self) -> &[Earning]
        ensures earnings { result.now ≡ self.now }
        ensures few { length self.now ≤ most_tables }
    {
        &self.earnings
    }

    /// Puts what all results of a board earn in place of what was there.
    pub(crate) fn put(&mut self, state: &State, board: u8)
        requires section { IsSection state.now.public.movement }
        requires from { 1 ≤ board }
        requires to { board ≤ boards_of state.now.public.movement }
        ensures { self.new ≡ earnings_on state.now board }
    {
        let vulnerability = state.marks(board).vulnerability;
        put_results(state, board, &mut self.results);
        put_earnings(
            &state.public().movement,
            vulnerability,
            &self.results,
            &mut self.scores,
            &mut self.earnings,
        );
    }
}
