//! What holds of travellers and rankings as a whole: each function has nothing to do, and its clauses are the theorem.
ghost use Rattle.std.specs.Prelude.{◌≡◌, ℕ, ◌+◌, ◌<◌, ◌↔◌, ℤ, pos, List, length, map, slice_index_or, Contains, IsTrue};
ghost use Rattle.std.specs.List.{AllPairs};
ghost use Rattle.std.specs.List.Sorted.{IsPermutation};
ghost use Rattle.table_terms.specs.declared.vulnerability.Vulnerability.{Vulnerability};
ghost use Rattle.movement.specs.Movement.{Section};
ghost use Rattle.scoring.specs.declared.outcome.Outcome.{Outcome};
ghost use Rattle.scoring.specs.declared.standing.Standing.{Standing};
ghost use Rattle.scoring.specs.Law78A.{units};
ghost use Rattle.scoring.specs.Ranking.{RanksBefore};
ghost use Rattle.standings.specs.declared.cell_result.CellResult.TheVariants.{Confirmed};
ghost use Rattle.standings.specs.declared.earning.Earning.{Earning};
ghost use Rattle.standings.specs.declared.table_result.TableResult.{TableResult};
ghost use Rattle.standings.specs.Order.{ranks_before};
ghost use Rattle.standings.specs.Ranking.{earning_of, pairs_of, ranking_of, standing_of};
ghost use Rattle.standings.specs.Traveller.{scores_of};
ghost use Rattle.standings.specs.Units.{units_of_score};

/// The units of a result by its place among the scores are its units by its score.
pub fn units_by_score()
    ensures { (scores : List ℤ) (place : ℕ) → place < length scores →
        units scores place ≡ units_of_score scores (slice_index_or scores place (pos 0)) }
{}

/// The test of the order in which pairs rank is true exactly where the one ranks before the other.
pub fn order_is_decided()
    ensures { (a b : Standing) → IsTrue (ranks_before a b) ↔ RanksBefore a b }
{}

/// A ranking has the standing of each pair once, and no pair stands before one that ranks before it.
pub fn ranking_is_in_order()
    ensures once { (section : Section) (earnings : List Earning) →
        IsPermutation (map (standing_of earnings) (pairs_of section)) (ranking_of section earnings) }
    ensures ordered { (section : Section) (earnings : List Earning) →
        AllPairs (λ earlier later. ¬ RanksBefore later earlier) (ranking_of section earnings) }
{}

/// What the two pairs of a table earn by a result that was played adds up to the top.
pub fn sides_share_what_was_played()
    ensures { (section : Section) (vulnerability : Vulnerability) (results : List TableResult)
        (found : TableResult) (outcome : Outcome) → Contains results found → found.result ≡ Confirmed outcome →
        let earning = earning_of section vulnerability (scores_of vulnerability results) found in
        earning.for_north_south + earning.for_east_west ≡ earning.top }
{}
