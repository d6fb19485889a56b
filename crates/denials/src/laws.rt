//! What holds of the evidence that denials name.

ghost use Rattle.std.specs.Prelude.{◌≡◌, true, Some};
ghost use Rattle.movement.specs.Movement.{IsSection};
ghost use Rattle.disclosure_rules.specs.declared.fact.Fact.{Fact};
ghost use Rattle.disclosure_rules.specs.declared.public.Public.{Public};
ghost use Rattle.disclosure_rules.specs.declared.rule.Rule.TheVariants.{StillToPlay};
ghost use Rattle.disclosure_rules.specs.declared.viewer.Viewer.{Viewer};
ghost use Rattle.disclosure_rules.specs.Seating.{IsSeatedAt};
ghost use Rattle.denials.specs.declared.denial.Denial.{Denial};
ghost use Rattle.denials.specs.Evidence.{is_awaited, waits_for_results, denial_of};

/// Where a rule waits for results, the table that is named is scheduled to play the board and has no result on it.
/// Where it is the user's own result that is awaited, the user sits at that table.
pub fn names_an_awaited_table()
    ensures awaited { (public : Public) (viewer : Viewer) (fact : Fact) (denial : Denial) → IsSection public.movement →
        denial_of public viewer fact ≡ Some denial → waits_for_results denial.rule ≡ true →
        is_awaited public.movement public.live denial.board denial.table ≡ true }
    ensures own { (public : Public) (viewer : Viewer) (fact : Fact) (denial : Denial) → IsSection public.movement →
        denial_of public viewer fact ≡ Some denial → denial.rule ≡ StillToPlay →
        IsSeatedAt public viewer (record { table = denial.table; board = denial.board }) }
{}
