//! Laws of what facts say: functions with nothing to do, whose clauses are the laws.
ghost use Rattle.std.specs.Prelude.{◌≡◌, ◌≢◌, ℕ, ◌-◌, Some, option_map, slice_get};
ghost use Rattle.movement.specs.declared.cell.Cell.{Cell};
ghost use Rattle.disclosure_rules.specs.declared.marks.Marks.{Marks};
ghost use Rattle.query_filter.specs.declared.trick_table.TrickTable.{TrickTable};
ghost use Rattle.par.specs.declared.par.Par.{Par};
ghost use Rattle.session_state.specs.OwnNumbers.{KeepsOwn};
ghost use Rattle.session_state.specs.SessionState.{SessionState, cell_at, IsPlaced};
ghost use Rattle.session_queries.specs.Content.{analysis_of, costs_of};
ghost use Rattle.session_queries.specs.Numbers.{IsAnalysisOf, IsCountOf, IsParOf};
ghost use Rattle.session_queries.specs.Par.{marked_par};
ghost use Rattle.session_queries.specs.declared.card_costs.CardCosts.{CardCosts};
ghost use Rattle.session_queries.specs.declared.card_costs.CardCosts.TheVariants.{Pending, NoCards};

/// Each double-dummy number that a fact says is the exhaustive one: an analysis has the numbers of its board's hands, a
/// par is that of these numbers by what is marked on the board, and costs are the answer for the board's hands, the
/// contract of the cell's result and the cards as they were played.
/// The state of every session keeps what this asks of it.
pub fn said_numbers_are_exhaustive()
    ensures analysis { (state : SessionState) (board : ℕ) (tricks : TrickTable) →
        KeepsOwn state → analysis_of state board ≡ Some tricks → IsAnalysisOf state board tricks }
    ensures par { (state : SessionState) (board : ℕ) (marks : Marks) (par : Par) →
        KeepsOwn state → slice_get state.public.marks (board - 1) ≡ Some marks →
        option_map (marked_par marks) (analysis_of state board) ≡ Some par → IsParOf state board par }
    ensures costs { (state : SessionState) (cell : Cell) (counted : CardCosts) →
        KeepsOwn state → IsPlaced cell → costs_of (cell_at state cell) ≡ Some counted →
        counted ≢ Pending → counted ≢ NoCards → IsCountOf state cell counted }
{}
