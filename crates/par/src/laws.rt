//! What the auction comes to: each function here has nothing to do, and its clauses are the theorem.
ghost use Rattle.std.specs.Prelude.{◌≡◌, ℕ, ◌<◌, ◌≤◌, ◌⊎◌, Bool, ◌≤ℤ◌};
ghost use Rattle.table_terms.specs.declared.place.Place.{Place};
ghost use Rattle.table_terms.specs.declared.strain.Strain.{Strain};
ghost use Rattle.table_terms.specs.declared.vulnerability.Vulnerability.{Vulnerability};
ghost use Rattle.query_filter.specs.declared.trick_table.TrickTable.{TrickTable};
ghost use Rattle.scoring.specs.declared.contract.Contract.{Contract};
ghost use Rattle.scoring.specs.declared.doubling.Doubling.TheVariants.{Undoubled, Doubled};
ghost use Rattle.scoring.specs.Law77.{score_of};
ghost use Rattle.par.specs.Auction.{doubling_at, par_of, passed_out};
ghost use Rattle.par.specs.Bid.{all_bids};
ghost use Rattle.par.specs.Laws.{IsBid, Outranks, GainsNothing, StandsAsPar};

/// At par neither side gains by going on: no bid that outranks the contract brings any of the other three players' sides
/// more, whatever is bid after it for the best; and where the board is passed out, no bid of anyone's does.
pub fn neither_side_gains()
    ensures { (table : TrickTable) (vulnerability : Vulnerability) (dealer : Place) →
        ((par_of table vulnerability dealer ≡ passed_out)
        × ((player : Place) → GainsNothing table vulnerability all_bids player passed_out))
        ⊎ StandsAsPar table vulnerability all_bids (par_of table vulnerability dealer) }
{}

/// The dealer's side gets no less at par than by any first bid of the dealer's.
pub fn no_first_bid_is_better()
    ensures { (table : TrickTable) (vulnerability : Vulnerability) (dealer : Place) →
        GainsNothing table vulnerability all_bids dealer (par_of table vulnerability dealer) }
{}

/// The opponents do best to double exactly the contracts that will be set: declarer's side scores no more so than where
/// none, or each, is doubled.
pub fn doubling_is_for_the_best()
    ensures undoubled { (contract : Contract) (vulnerable : Bool) (tricks : ℕ) →
        score_of (record contract { doubling = doubling_at contract.level tricks }) vulnerable tricks
        ≤ℤ score_of (record contract { doubling = Undoubled }) vulnerable tricks }
    ensures doubled { (contract : Contract) (vulnerable : Bool) (tricks : ℕ) →
        score_of (record contract { doubling = doubling_at contract.level tricks }) vulnerable tricks
        ≤ℤ score_of (record contract { doubling = Doubled }) vulnerable tricks }
{}

/// The bids are all those of Law 18, in its order.
pub fn bids_are_in_order()
    ensures order { (one other : ℕ) → one < other → other < all_bids → Outranks one other }
    ensures each { (level : ℕ) (strain : Strain) → 1 ≤ level → level ≤ 7 → (higher : ℕ) × IsBid level strain higher }
{}
