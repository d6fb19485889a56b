ghost use Rattle.std.specs.Prelude.{◌≡◌, ◌≢◌, ◌≤◌, ◌<◌, ◌+◌, ℕ, false, [], List, ◌&&◌, nat_le, if◌then◌else◌, length, get_or, Some, IfNone, IfOk, IfSome, vec_len};
ghost use Rattle.movement.specs.Movement.{boards_of, IsSection};
ghost use Rattle.scoring.specs.declared.standing.Standing.{Standing};
ghost use Rattle.session_state.specs.SessionState.{AreLive};
ghost use Rattle.class_views.specs.Kept.{AreWithinBoard, AreStandings, IsChangedAt, IsKept, IsKeptOf, IsNothing};
ghost use Rattle.class_views.specs.Totals.{told_board};
ghost use Rattle.class_views.specs.Places.{class_places};
ghost use Rattle.class_views.specs.declared.class_view.ClassView.{ClassView};

use crate::board_earnings::BoardEarnings;
use crate::class_view::{ClassView, change_each};
use crate::pair_totals::PairTotals;
use crate::user_class::CLASSES;
use session_commands::Command;
use session_state::State;
use std::alloc::{AllocError, Global};

/// What is kept beside a state: what the users of each class see, what each board earns the pairs, and room for a board.
#[derive(Drop)]
pub(crate) struct Kept {
    pub(crate) classes: Vec<ClassView>,
    rows: Vec<PairTotals>,
    earnings: BoardEarnings,
    fresh: PairTotals,
}

impl Kept {
    /// What is kept beside a state, with all the room that it ever needs.
    pub(crate) fn open(alloc: Global, state: &State) -> Result<Kept, AllocError>
        ensures kept { IfOk result (λ kept. IsKeptOf state.now kept.classes.items kept.rows.items) }
        ensures section { IsSection state.now.public.movement }
        ensures live { AreLive state.now.public.live state.now.cells }
    {
        let boards = state.public().movement.boards();
        let mut kept = Kept::empty(alloc, boards)?;
        for before in 0..boards {
            kept.change(state, before + 1);
        }
        Ok(kept)
    }

    // Nothing is seen of any board, and no board earns anything.
    fn empty(alloc: Global, boards: u8) -> Result<Kept, AllocError>
        ensures { IfOk result (λ kept.
            IsKept boards (λ class board. false) (λ board. []) kept.classes.items kept.rows.items) }
    {
        let classes = empty_classes(alloc)?;
        let rows = empty_rows(alloc, boards)?;
        let earnings = BoardEarnings::open(alloc)?;
        let fresh = PairTotals::open(alloc)?;
        Ok(Kept {
            classes,
            rows,
            earnings,
            fresh,
        })
    }

    /// Takes in what the board is now that a command is about. What is kept of any other board stays, whatever it is, and all
    /// of it where the command is about no board of the session. It takes no memory.
    pub(crate) fn follow(&mut self, state: &State, command: &Command)
        requires classes { vec_len self.old.classes ≡ class_places }
        requires rows { vec_len self.old.rows ≡ boards_of state.now.public.movement }
        ensures classes { vec_len self.new.classes ≡ class_places }
        ensures board { (own : ℕ) → 1 ≤ own → own ≤ boards_of state.now.public.movement →
            told_board command.now ≡ Some own →
            IsChangedAt state.now own self.old.classes.items self.old.rows.items self.new.classes.items
            self.new.rows.items }
        ensures none { ((own : ℕ) → 1 ≤ own → own ≤ boards_of state.now.public.movement →
            told_board command.now ≢ Some own) → self.new ≡ self.old }
        ensures section { IsSection state.now.public.movement }
        ensures live { AreLive state.now.public.live state.now.cells }
    {
        if let Some(board) = told_board(state, command) {
            self.change(state, board);
        }
    }

    // Takes in what a board is now, and looks at the results of this board alone.
    fn change(&mut self, state: &State, board: u8)
        requires section { IsSection state.now.public.movement }
        requires from { 1 ≤ board }
        requires to { board ≤ boards_of state.now.public.movement }
        requires classes { vec_len self.old.classes ≡ class_places }
        requires rows { vec_len self.old.rows ≡ boards_of state.now.public.movement }
        ensures classes { vec_len self.new.classes ≡ class_places }
        ensures rows { vec_len self.new.rows ≡ boards_of state.now.public.movement }
        ensures changed { IsChangedAt state.now board self.old.classes.items self.old.rows.items self.new.classes.items
            self.new.rows.items }
    {
        let row = board as usize - 1;
        self.earnings.put(state, board);
        self.fresh.put(self.earnings.earnings());
        change_each(
            &mut self.classes,
            state.public(),
            board,
            &self.rows[row],
            &self.fresh,
        );
        std::mem::swap(&mut self.rows[row], &mut self.fresh);
    }
}

/// Each class, which sees no board.
fn empty_classes(alloc: Global) -> Result<Vec<ClassView>, AllocError>
    ensures each { IfOk result (λ classes. vec_len classes ≡ class_places) }
    ensures none { IfOk result (λ classes. (place : ℕ) (d : ClassView) → place < class_places →
        IsNothing (get_or classes.items place d)) }
{
    let mut classes = Vec::with_capacity(alloc, CLASSES as usize)?;
    for made in 0..CLASSES {
        classes.push(ClassView::open(alloc)?)?;
    }
    Ok(classes)
}

/// So many boards that earn nothing.
fn empty_rows(alloc: Global, boards: u8) -> Result<Vec<PairTotals>, AllocError>
    ensures each { IfOk result (λ rows. vec_len rows ≡ boards) }
    ensures none { IfOk result (λ rows. (place : ℕ) (d : List Standing) → place < boards →
        AreStandings [] (get_or rows.items place d)) }
    ensures small { IfOk result (λ rows. (place : ℕ) (d : List Standing) → place < boards →
        AreWithinBoard (get_or rows.items place d)) }
{
    let mut rows = Vec::with_capacity(alloc, boards as usize)?;
    for made in 0..boards {
        rows.push(PairTotals::open(alloc)?)?;
    }
    Ok(rows)
}

/// The board of the session that a command is about, if it is about one.
fn told_board(state: &State, command: &Command) -> Option<u8>
    ensures board { IfSome result (λ board. told_board command.now ≡ Some board) }
    ensures from { IfSome result (λ board. 1 ≤ board) }
    ensures to { IfSome result (λ board. board ≤ boards_of state.now.public.movement) }
    ensures none { IfNone result ((board : ℕ) → 1 ≤ board → board ≤ boards_of state.now.public.movement →
        told_board command.now ≢ Some board) }
    ensures live { AreLive state.now.public.live state.now.cells }
    ensures section { IsSection state.now.public.movement }
{
    let boards = state.public().movement.boards();
    match named_board(command) {
        Some(board) if 1 <= board && board <= boards => Some(board),
        _ => None,
    }
}

/// The board that a command names, if it names one.
fn named_board(command: &Command) -> Option<u8>
    ensures { result ≡ told_board command.now }
{
    match command.cell() {
        Some(cell) => Some(cell.board),
        None => command.board(),
    }
}
