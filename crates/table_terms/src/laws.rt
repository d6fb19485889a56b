//! What follows from the definitions alone: each function here has nothing to do, and its clauses are the theorem.
ghost use Rattle.std.specs.Prelude.{◌≡◌, ◌≤◌, ℕ, Result, Ok};
ghost use Rattle.table_terms.specs.Law2.{IsDealer, IsMarked};
ghost use Rattle.table_terms.specs.declared.place.Place.{Place};
ghost use Rattle.table_terms.specs.declared.vulnerability.Vulnerability.{Vulnerability};
ghost use Rattle.table_terms.specs.declared.pair.Pair.{Pair};
ghost use Rattle.table_terms.specs.declared.pair_reading.NotAPair.{NotAPair};
ghost use Rattle.table_terms.specs.Pair.{pair_text};
ghost use Rattle.table_terms.specs.PairReading.{ReadsPair};

/// Law 2 gives each board one dealer and one marking.
pub fn one_dealer_and_one_marking()
    ensures dealer { (board : ℕ) (place other : Place) → IsDealer board place → IsDealer board other → place ≡ other }
    ensures marking { (board : ℕ) (vulnerability other : Vulnerability) →
        IsMarked board vulnerability → IsMarked board other → vulnerability ≡ other }
{}

/// A pair with a number from 1 to 255 that is written is read back.
pub fn a_written_pair_is_read_back()
    ensures { (pair : Pair) (read : Result Pair NotAPair) →
        1 ≤ pair.number → pair.number ≤ 255 → ReadsPair (pair_text pair) read → read ≡ Ok pair }
{}
