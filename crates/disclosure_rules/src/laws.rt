//! What holds of the policy as a whole.

ghost use Rattle.std.specs.Prelude.{◌≡◌, ◌↔◌, ℕ, ◌<◌, true, false, Some, None};
ghost use Rattle.movement.specs.declared.cell.Cell.{Cell};
ghost use Rattle.disclosure_rules.specs.declared.fact.Fact.{Fact};
ghost use Rattle.disclosure_rules.specs.declared.fact.Fact.TheVariants.{Hands};
ghost use Rattle.disclosure_rules.specs.declared.public.Public.{Public};
ghost use Rattle.disclosure_rules.specs.declared.rule.Rule.{Rule};
ghost use Rattle.disclosure_rules.specs.declared.viewer.Viewer.{Viewer};
ghost use Rattle.disclosure_rules.specs.Fact.{board_of_fact};
ghost use Rattle.disclosure_rules.specs.Policy.{forbids, first_rule, rule_number};
ghost use Rattle.disclosure_rules.specs.Seating.{is_complete, plays_board, has_still_to_play, is_seated_at, IsComplete};
ghost use Rattle.disclosure_rules.specs.Seating.{PlaysBoard, HasStillToPlay, IsSeatedAt};

/// The rule that is named first forbids the fact, and no rule with a lower number in the edition does. It is one of the
/// edition's rules: it has a number there.
pub fn first_is_named()
    ensures forbids { (public : Public) (viewer : Viewer) (fact : Fact) (rule : Rule) →
        first_rule public viewer fact ≡ Some rule → forbids rule public viewer fact ≡ true }
    ensures least { (public : Public) (viewer : Viewer) (fact : Fact) (rule other : Rule) →
        first_rule public viewer fact ≡ Some rule → rule_number public.edition other < rule_number public.edition rule →
        forbids other public viewer fact ≡ false }
    ensures numbered { (public : Public) (viewer : Viewer) (fact : Fact) (rule : Rule) →
        first_rule public viewer fact ≡ Some rule → 0 < rule_number public.edition rule }
    ensures none { (public : Public) (viewer : Viewer) (fact : Fact) →
        (first_rule public viewer fact ≡ None) ↔ ((rule : Rule) → forbids rule public viewer fact ≡ false) }
{}

/// Where no rule forbids a user some secret fact of a board, no rule forbids the hands of the board.
pub fn hands_first()
    ensures { (public : Public) (viewer : Viewer) (fact : Fact) (board : ℕ) → board_of_fact fact ≡ Some board →
        first_rule public viewer fact ≡ None → first_rule public viewer (Hands board) ≡ None }
{}

/// What the rules ask of seats and boards, in terms of the rows of the movement.
pub fn said_by_rows()
    ensures complete { (public : Public) (board : ℕ) →
        (is_complete public board ≡ true) ↔ IsComplete public board }
    ensures plays { (public : Public) (viewer : Viewer) (board : ℕ) →
        (plays_board public viewer board ≡ true) ↔ PlaysBoard public viewer board }
    ensures still { (public : Public) (viewer : Viewer) (board : ℕ) →
        (has_still_to_play public viewer board ≡ true) ↔ HasStillToPlay public viewer board }
    ensures seated { (public : Public) (viewer : Viewer) (cell : Cell) →
        (is_seated_at public viewer cell ≡ true) ↔ IsSeatedAt public viewer cell }
{}
