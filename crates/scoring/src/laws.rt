//! What the laws come to: each function here has nothing to do, and its clauses are the theorem.
ghost use Rattle.std.specs.Prelude.{◌≡◌, ℕ, ◌+◌, ◌-◌, ◌*◌, ◌<◌, ◌≤◌, ◌⊎◌, ◌↔◌, Bool, true, false, ℤ, pos, neg_ℤ, ◌<ℤ◌, ◌≤ℤ◌, List, length, map, sum, slice_index, slice_index_or, EachIndex, IsTrue};
ghost use Rattle.table_terms.specs.declared.vulnerability.Vulnerability.{Vulnerability};
ghost use Rattle.scoring.specs.declared.contract.Contract.{Contract};
ghost use Rattle.scoring.specs.declared.doubling.Doubling.TheVariants.{Undoubled, Doubled, Redoubled};
ghost use Rattle.scoring.specs.declared.outcome.Outcome.{Outcome};
ghost use Rattle.scoring.specs.declared.outcome.Outcome.TheVariants.{PassedOut};
ghost use Rattle.scoring.specs.declared.standing.Standing.{Standing};
ghost use Rattle.scoring.specs.Law77.{score_of, tricks_needed, ns_score_of};
ghost use Rattle.scoring.specs.Law78A.{units};
ghost use Rattle.scoring.specs.Outcome.{same_outcome};
ghost use Rattle.scoring.specs.Ranking.{RanksBefore};

/// Two outcomes are found equal exactly where they are one: the same contract with the same tricks, or no contract.
#[tactic(auto, using(crate::proofs::OutcomeLemmas::same_outcome_decides))]
pub fn equal_outcomes_are_one()
    ensures { (one other : Outcome) → IsTrue (same_outcome one other) ↔ (one ≡ other) }
{}

/// A contract that is made scores for declarer's side, and one that is set scores against it.
pub fn made_or_set()
    ensures made { (contract : Contract) (vulnerable : Bool) (tricks : ℕ) →
        tricks_needed contract ≤ tricks → pos 0 <ℤ score_of contract vulnerable tricks }
    ensures set { (contract : Contract) (vulnerable : Bool) (tricks : ℕ) →
        tricks < tricks_needed contract → score_of contract vulnerable tricks <ℤ pos 0 }
{}

/// Only a board that is passed out scores 0.
pub fn only_a_passed_out_board_scores_zero()
    ensures { (outcome : Outcome) (vulnerability : Vulnerability) →
        (ns_score_of outcome vulnerability ≡ pos 0) ↔ (outcome ≡ PassedOut) }
{}

/// One more trick always scores more, in any contract.
pub fn each_trick_counts()
    ensures { (contract : Contract) (vulnerable : Bool) (tricks : ℕ) →
        score_of contract vulnerable tricks <ℤ score_of contract vulnerable (tricks + 1) }
{}

/// A contract that is made never scores less doubled than undoubled, nor redoubled than doubled.
pub fn doubled_and_made()
    ensures doubled { (contract : Contract) (vulnerable : Bool) (tricks : ℕ) →
        tricks_needed contract ≤ tricks →
        score_of (record contract { doubling = Undoubled }) vulnerable tricks
        ≤ℤ score_of (record contract { doubling = Doubled }) vulnerable tricks }
    ensures redoubled { (contract : Contract) (vulnerable : Bool) (tricks : ℕ) →
        tricks_needed contract ≤ tricks →
        score_of (record contract { doubling = Doubled }) vulnerable tricks
        ≤ℤ score_of (record contract { doubling = Redoubled }) vulnerable tricks }
{}

/// A contract that is set always loses more doubled than undoubled, and redoubled than doubled.
pub fn doubled_and_set()
    ensures doubled { (contract : Contract) (vulnerable : Bool) (tricks : ℕ) →
        tricks < tricks_needed contract →
        score_of (record contract { doubling = Doubled }) vulnerable tricks
        <ℤ score_of (record contract { doubling = Undoubled }) vulnerable tricks }
    ensures redoubled { (contract : Contract) (vulnerable : Bool) (tricks : ℕ) →
        tricks < tricks_needed contract →
        score_of (record contract { doubling = Redoubled }) vulnerable tricks
        <ℤ score_of (record contract { doubling = Doubled }) vulnerable tricks }
{}

/// Vulnerable, a contract that is made never scores less than not vulnerable, and one that is set always loses more.
pub fn vulnerable_stakes_are_higher()
    ensures made { (contract : Contract) (tricks : ℕ) → tricks_needed contract ≤ tricks →
        score_of contract false tricks ≤ℤ score_of contract true tricks }
    ensures set { (contract : Contract) (tricks : ℕ) → tricks < tricks_needed contract →
        score_of contract true tricks <ℤ score_of contract false tricks }
{}

/// Undoubled, the tricks that a side makes never score less for being bid: one level more, made, never scores less.
pub fn undoubled_tricks_are_worth_bidding()
    ensures { (contract : Contract) (vulnerable : Bool) (tricks : ℕ) →
        contract.doubling ≡ Undoubled → 1 ≤ contract.level → contract.level < 7 →
        tricks_needed contract < tricks →
        score_of contract vulnerable tricks
        ≤ℤ score_of (record contract { level = contract.level + 1 }) vulnerable tricks }
{}

/// The units of a board with m scores sum to m times m - 1: each two scores share two units.
pub fn units_of_a_board()
    ensures { (scores : List ℤ) (points : List ℕ) → length points ≡ length scores →
        EachIndex scores (λ i. slice_index points i ≡ units scores i) →
        sum points ≡ length scores * (length scores - 1) }
{}

/// No score gets more than a top, two units for each other score; what one side does not get of it, the other side
/// gets, whose scores are the negatives.
pub fn sides_share_a_top()
    ensures { (scores : List ℤ) (i : ℕ) → i < length scores →
        units scores i + units (map neg_ℤ scores) i ≡ 2 * (length scores - 1) }
{}

/// A better score on the board gets more units, and an equal score gets the same.
pub fn better_scores_get_more()
    ensures more { (scores : List ℤ) (i j : ℕ) → i < length scores → j < length scores →
        slice_index_or scores i (pos 0) <ℤ slice_index_or scores j (pos 0) → units scores i < units scores j }
    ensures same { (scores : List ℤ) (i j : ℕ) → i < length scores → j < length scores →
        slice_index_or scores i (pos 0) ≡ slice_index_or scores j (pos 0) → units scores i ≡ units scores j }
{}

/// The ranking puts any two standings in one order, and its order holds from first to last.
pub fn ranking_is_an_order()
    ensures total { (a b : Standing) → RanksBefore a b ⊎ ((a ≡ b) ⊎ RanksBefore b a) }
    ensures asymmetric { (a b : Standing) → RanksBefore a b → ¬ RanksBefore b a }
    ensures transitive { (a b c : Standing) → RanksBefore a b → RanksBefore b c → RanksBefore a c }
{}
