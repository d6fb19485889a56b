//! Why a class may stand for its users, and why an entry about a board is no matter to the others.
ghost use Rattle.std.specs.Prelude.{◌≡◌, ◌≢◌, ◌≤◌, ◌+◌, ◌&&◌, ℕ, false, Option, Some};
ghost use Rattle.movement.specs.Movement.{IsSection, boards_of};
ghost use Rattle.disclosure_rules.specs.declared.public.Public.{Public};
ghost use Rattle.disclosure_rules.specs.declared.viewer.Viewer.{Viewer};
ghost use Rattle.session_state.specs.Apply.{apply};
ghost use Rattle.session_state.specs.SessionState.{SessionState, AreLive};
ghost use Rattle.session_commands.specs.declared.entry.Entry.{Entry};
ghost use Rattle.standings.specs.declared.earning.Earning.{Earning};
ghost use Rattle.disclosure_rules.specs.Fact.{board_of_fact};
ghost use Rattle.disclosure_rules.specs.Policy.{first_rule};
ghost use Rattle.disclosure_rules.specs.declared.fact.Fact.{Fact};
ghost use Rattle.class_views.specs.Classes.{CommentAlike, IsSeatedAlike, class_of, class_sees, is_shown_boards};
ghost use Rattle.class_views.specs.Classes.{sees_board, without_embargo};
ghost use Rattle.class_views.specs.Totals.{counted_for, counted_on, earnings_on, told_board, total_for};
ghost use Rattle.class_views.specs.declared.user_class.UserClass.{UserClass};
ghost use Rattle.table_terms.specs.declared.pair.Pair.{Pair};

/// Whom the policy treats alike: of two users of one class it forbids what belongs to a board by the same rule, but for
/// what hangs on a seat at the fact's own table, where one of them sits and the other doesn't, and but for the
/// double-dummy value, where one of two contestants comments and the other doesn't: in a session no contestant does.
pub fn a_class_is_treated_alike()
    ensures { (public : Public) (one other : Viewer) (class : UserClass) (asked : Fact) (board : ℕ) →
        IsSection public.movement → class_of one ≡ Some class → class_of other ≡ Some class →
        board_of_fact asked ≡ Some board → IsSeatedAlike public one other asked → CommentAlike public one other asked →
        first_rule public one asked ≡ first_rule public other asked }
{}

/// Users of one class are shown the hands of the same boards, and users of no class those of none.
pub fn a_class_sees_the_same()
    ensures { (public : Public) (viewer : Viewer) (board : ℕ) → IsSection public.movement →
        sees_board public viewer board ≡ class_sees public (class_of viewer) board }
{}

/// A class is shown what it would be without an embargo, where it may be shown boards at all. Where it may not, as each
/// class but the directors' under an embargo, all boards count nothing for it.
pub fn an_embargo_hides_all_boards()
    ensures sees { (public : Public) (class : UserClass) (board : ℕ) →
        class_sees public (Some class) board
        ≡ (is_shown_boards public class && class_sees (without_embargo public) (Some class) board) }
    ensures totals { (state : SessionState) (class : UserClass) (pair : Pair) →
        is_shown_boards state.public class ≡ false →
        total_for state (Some class) pair ≡ record { pair = pair; earned = 0; tops = 0 } }
{}

/// An entry changes what all boards count for a class by what its own board counts. Of another board each class is shown
/// what it was, but for an embargo, and its results earn what they did; so an entry about no board, as on seats, accounts,
/// roles, rounds, phases or an embargo, changes no class's boards.
pub fn an_entry_changes_its_board()
    ensures counted { (count : Earning → ℕ) (state : SessionState) (entry : Entry) (class : Option UserClass) (board : ℕ) →
        IsSection state.public.movement → AreLive state.public.live state.cells →
        AreLive (apply state entry).public.live (apply state entry).cells → 1 ≤ board →
        board ≤ boards_of state.public.movement → told_board entry.command ≡ Some board →
        counted_for count (apply state entry) class + counted_on count state class board
        ≡ counted_for count state class + counted_on count (apply state entry) class board }
    ensures elsewhere { (state : SessionState) (entry : Entry) (class : UserClass) (board : ℕ) →
        IsSection state.public.movement → AreLive state.public.live state.cells →
        AreLive (apply state entry).public.live (apply state entry).cells → 1 ≤ board →
        board ≤ boards_of state.public.movement → told_board entry.command ≢ Some board →
        (class_sees (without_embargo (apply state entry).public) (Some class) board
        ≡ class_sees (without_embargo state.public) (Some class) board)
        × (earnings_on (apply state entry) board ≡ earnings_on state board) }
{}
