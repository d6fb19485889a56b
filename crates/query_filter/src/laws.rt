//! What holds of every filter.

ghost use Rattle.std.specs.Prelude.{◌≡◌, ◌<◌, [], ◌∷◌, true, false, not, None, Any, ℕ, ℤ, ◌<ℤ◌};
ghost use Rattle.table_terms.specs.declared.place.Place.{Place};
ghost use Rattle.table_terms.specs.declared.strain.Strain.{Strain};
ghost use Rattle.query_filter.specs.declared.atom.Atom.{Atom};
ghost use Rattle.query_filter.specs.declared.atom.Atom.TheVariants.{DoubleDummy};
ghost use Rattle.query_filter.specs.declared.board_facts.BoardFacts.{BoardFacts};
ghost use Rattle.query_filter.specs.declared.bounds.Bounds.{Bounds};
ghost use Rattle.query_filter.specs.declared.bounds.ScoreBounds.{ScoreBounds};
ghost use Rattle.query_filter.specs.Bounds.{is_between, is_score_between};
ghost use Rattle.query_filter.specs.Formula.{Formulas, Not, And, Or};
ghost use Rattle.query_filter.specs.Holds.{atom_holds, holds};
ghost use Rattle.query_filter.specs.Laws.{IsOnResults, with_one_outcome, contraries};

/// Where no result is shown, no atom on results holds, and where there is no table, none on double-dummy tricks.
#[tactic(auto, using(crate::proofs::LawLemmas::no_result))]
pub fn nothing_shown_makes_nothing_true()
    ensures results { (atom : Atom) (facts : BoardFacts) →
        IsOnResults atom → facts.outcomes ≡ [] → atom_holds atom facts ≡ false }
    ensures table { (declarer : Place) (strain : Strain) (tricks : Bounds) (facts : BoardFacts) →
        facts.tricks ≡ None → atom_holds (DoubleDummy declarer strain tricks) facts ≡ false }
{}

/// An atom on results that holds of a board holds by one of its shown results alone.
#[tactic(auto, using(crate::proofs::LawLemmas::one_result))]
pub fn one_result_makes_it_true()
    ensures { (atom : Atom) (facts : BoardFacts) → IsOnResults atom → atom_holds atom facts ≡ true
        → Any (λ outcome. atom_holds atom (with_one_outcome facts outcome) ≡ true) facts.outcomes }
{}

/// Nothing lies between bounds whose least is above their most.
pub fn reversed_bounds_are_empty()
    ensures numbers { (bounds : Bounds) (number : ℕ) →
        bounds.max < bounds.min → is_between bounds number ≡ false }
    ensures scores { (bounds : ScoreBounds) (points : ℤ) →
        bounds.max <ℤ bounds.min → is_score_between bounds points ≡ false }
{}

/// That not each of some formulas holds is that the contrary of some of them does, and the other way round.
#[tactic(auto, using(crate::proofs::LawLemmas::not_each, crate::proofs::LawLemmas::not_some))]
pub fn contraries_change_each_and_some()
    ensures each { (fs : Formulas) (facts : BoardFacts) →
        holds (Not (And fs)) facts ≡ holds (Or (contraries fs)) facts }
    ensures some { (fs : Formulas) (facts : BoardFacts) →
        holds (Not (Or fs)) facts ≡ holds (And (contraries fs)) facts }
{}
