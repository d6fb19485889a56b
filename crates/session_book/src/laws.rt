//! Laws of the book: functions with nothing to do, whose clauses are the laws.
ghost use Rattle.std.specs.Prelude.{◌≡◌, ◌≤◌, ℕ, false, List, [], ◌∷◌, ◌++◌, Some};
ghost use Rattle.movement.specs.declared.cell.Cell.{Cell};
ghost use Rattle.movement.specs.Movement.{IsSection, most_boards};
ghost use Rattle.disclosure_rules.specs.Seating.{IsSeatedAt};
ghost use Rattle.session_state.specs.SessionState.{SessionState, viewer_of};
ghost use Rattle.session_state.specs.OwnNumbers.{TellsOwn, KeepsOwn};
ghost use Rattle.session_state.specs.Seats.{AreSeatsOf};
ghost use Rattle.session_commands.specs.declared.entry.Entry.{Entry};
ghost use Rattle.session_book.specs.Exposure.{SomeAllowed, is_exposed, result_cell};
ghost use Rattle.session_book.specs.Journal.{replay, IsAccepted};
ghost use Rattle.session_commands.specs.Command.{touched_by};
ghost use Rattle.session_book.specs.Touched.{is_touched};

/// No foreknowledge: where some secret fact of a board was allowed to a user after some first part of an accepted
/// journal, the empty one included, no later entry enters or confirms a result of that board at a cell in one of whose
/// pairs the user sits at that moment.
pub fn no_foreknowledge()
    ensures { (opening : SessionState) (first later after : List Entry) (entry : Entry) (user : List ℕ) (board : ℕ)
        (cell : Cell) →
        IsAccepted opening (first ++ later ++ entry ∷ after) → SomeAllowed (replay opening first) user board →
        result_cell entry.command ≡ Some cell → cell.board ≡ board →
        ¬ IsSeatedAt (replay opening (first ++ later)).public (viewer_of (replay opening (first ++ later)) user) cell }
{}

/// An entry exposes nobody anew but whom it touches, and to nothing but what it touches: a new result or a release its
/// board, for anybody; a seat, and a role that is assigned or taken away, any board, for its user; an inheritance that
/// comes or goes, and an embargo that is lifted, anything. So after each other command nobody has to be asked about, and
/// after these nobody else.
pub fn only_the_touched_are_newly_exposed()
    ensures { (opening : SessionState) (journal : List Entry) (entry : Entry) (user : List ℕ) (board : ℕ) →
        1 ≤ board → board ≤ most_boards → is_touched (touched_by entry.command) user board ≡ false →
        is_exposed opening (journal ++ entry ∷ []) user board ≡ is_exposed opening journal user board }
{}

/// The solver's numbers are of the session's own deals, whose hands no entry changes. What an accepted journal tells is
/// of its board's hands, and of the contract and the play of its cell's result at that moment; so is what is kept after
/// any journal of a session that opens with nothing else. Since the types of tables and costs keep the numbers, each is
/// the exhaustive one.
pub fn numbers_are_of_the_sessions_deals()
    ensures told { (opening : SessionState) (before after : List Entry) (entry : Entry) →
        IsAccepted opening (before ++ entry ∷ after) → TellsOwn (replay opening before) entry.command }
    ensures deals { (opening : SessionState) (journal : List Entry) → (replay opening journal).deals ≡ opening.deals }
    ensures kept { (opening : SessionState) (journal : List Entry) → IsSection opening.public.movement →
        KeepsOwn opening → KeepsOwn (replay opening journal) }
{}

/// A seat has at most one user, and is of a pair of the movement, at a place of the pair's side, after any journal of a
/// session that opens so, as each does.
pub fn seats_stay_of_the_movement()
    ensures { (opening : SessionState) (journal : List Entry) → AreSeatsOf opening.public.movement opening.seats →
        AreSeatsOf opening.public.movement (replay opening journal).seats }
{}

/// What a session tells its members of itself is told as it was when the session opened, after any journal.
pub fn a_session_tells_the_same_of_itself()
    ensures { (opening : SessionState) (journal : List Entry) →
        (replay opening journal).notices ≡ opening.notices }
{}
