ghost use Rattle.std.specs.Prelude.{◌≡◌, ◌≤◌, ◌<◌, ℕ, true, Some, length, get_or, IfOk, [], vec_len};
ghost use Rattle.movement.specs.Movement.{most_boards};
ghost use Rattle.class_views.specs.Classes.{class_sees, is_shown_boards, without_embargo};
ghost use Rattle.class_views.specs.declared.class_view.ClassView.{ClassView};
ghost use Rattle.class_views.specs.Kept.{AreAlike, AreStandings, IsClassWith, boards_with};
ghost use Rattle.class_views.specs.Places.{class_at, class_places};

use crate::class_sight::ClassSight;
use crate::pair_totals::PairTotals;
use crate::user_class::{CLASSES, UserClass};
use disclosure_rules::{Boards, Public};
use std::alloc::{AllocError, Global};

/// What the users of a class see: the boards whose hands they are shown, and how the pairs stand on these.
#[derive(Drop)]
pub(crate) struct ClassView {
    pub(crate) boards: Boards,
    pub(crate) totals: PairTotals,
}

impl ClassView {
    /// What is seen where no board is.
    pub(crate) fn open(alloc: Global) -> Result<ClassView, AllocError>
        ensures boards { IfOk result (λ kept. kept.boards ≡ []) }
        ensures totals { IfOk result (λ kept. AreStandings [] kept.totals) }
    {
        let totals = PairTotals::open(alloc)?;
        let boards = Boards::new();
        Ok(ClassView { boards, totals })
    }

    /// Takes in what a board counts now in place of what it counted, and whether it is seen now.
    pub(crate) fn change(
        &mut self,
        board: u8,
        sees: bool,
        old: &PairTotals,
        new: &PairTotals,
        is_same: bool,
    )
        requires from { 1 ≤ board }
        requires to { board ≤ most_boards }
        requires same { is_same ≡ true → AreAlike old.now new.now }
        ensures { IsClassWith board sees old.now new.now self.old self.new }
    {
        let saw = self.boards.contains(board);
        self.totals.change(saw, old, sees, new, is_same);
        put_board(&mut self.boards, board, sees);
    }
}

/// Puts a board among others, or takes it from them.
fn put_board(boards: &mut Boards, board: u8, sees: bool)
    requires from { 1 ≤ board }
    requires to { board ≤ most_boards }
    ensures { boards.new ≡ boards_with sees boards.old board }
{
    if sees {
        boards.insert(board);
    } else {
        boards.remove(board);
    }
}

/// Each class takes in what a board counts now in place of what it counted, and whether it would be seen now without an
/// embargo.
pub(crate) fn change_each(
    classes: &mut Vec<ClassView>,
    public: &Public,
    board: u8,
    old: &PairTotals,
    new: &PairTotals,
)
    requires from { 1 ≤ board }
    requires to { board ≤ most_boards }
    requires each { vec_len classes.old ≡ class_places }
    ensures each { vec_len classes.new ≡ class_places }
    ensures classes { (place : ℕ) (d : ClassView) → place < class_places →
        IsClassWith board (class_sees (without_embargo public.now) (Some (class_at place)) board) old.now new.now
        (get_or classes.old.items place d) (get_or classes.new.items place d) }
{
    let sight = ClassSight::new(public, board);
    let is_same = old.agrees(new);
    for place in 0..CLASSES {
        let sees = sight.is_of(UserClass::at(place));
        classes[place as usize].change(board, sees, old, new, is_same);
    }
}

/// Whether the users of a class may be shown boards at all: under an embargo directors alone may.
pub(crate) fn is_shown_boards(public: &Public, class: UserClass) -> bool
    ensures { result ≡ is_shown_boards public.now class }
{
    match class {
        UserClass::Directors => true,
        UserClass::OfPair(_)
        | UserClass::Unseated
        | UserClass::Spectators
        | UserClass::Commentators => !public.is_embargoed(),
    }
}
