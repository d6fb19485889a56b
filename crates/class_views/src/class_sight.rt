//! Which classes would be shown a board without an embargo.

ghost use Rattle.std.specs.Prelude.{◌≡◌, ◌&&◌, ◌||◌, not, true, [], Some};
ghost use Rattle.disclosure_rules.specs.LiveCells.{tables_at};
ghost use Rattle.disclosure_rules.specs.Seating as seating;
ghost use Rattle.disclosure_rules.specs.Seating.{has_still_to_play, plays_board};
ghost use Rattle.small_sets.specs.Numbers.{has_number};
ghost use Rattle.class_views.specs.Classes.{class_sees, member_of, without_embargo};
ghost use Rattle.class_views.specs.declared.user_class.UserClass.TheVariants.{OfPair};

use crate::user_class::UserClass;
use disclosure_rules::Public;
use small_sets::NumberSet;
use table_terms::Pair;

/// What decides which classes would be shown a board without an embargo. Most of it is the same for all classes, and so is
/// looked at once: only of a pair it is asked whether it has a result there, and not while nobody has one.
#[derive(Drop)]
pub(crate) struct ClassSight<'a> {
    public: &'a Public,
    board: u8,
    is_held: bool,
    is_complete: bool,
    is_unplayed: bool,
    ghost held: { is_held ≡ has_number public.now.held board },
    ghost complete: { is_complete ≡ seating.is_complete public.now board },
    ghost unplayed: { is_unplayed ≡ true → tables_at public.now.live board ≡ [] },
}

impl<'a> ClassSight<'a> {
    /// What decides it of a board.
    pub(crate) fn new(public: &'a Public, board: u8) -> ClassSight<'a>
        ensures public { result.public.now ≡ public.now }
        ensures board { result.board ≡ board }
    {
        ClassSight {
            public,
            board,
            is_held: public.held.contains(board),
            is_complete: public.is_complete(board),
            is_unplayed: public.live.tables(board) == NumberSet::new(),
        }
    }

    /// Whether the users of a class would be shown the board's hands without an embargo.
    pub(crate) fn is_of(&self, class: UserClass) -> bool
        ensures { result ≡ class_sees (without_embargo self.now.public.now) (Some class) self.now.board }
    {
        match class {
            UserClass::Directors => true,
            UserClass::OfPair(pair) => !self.is_held && self.is_over_for(pair),
            UserClass::Unseated | UserClass::Spectators => !self.is_held && self.is_complete,
            UserClass::Commentators => {
                !self.is_held && (self.is_complete || self.public.edition.is_second())
            }
        }
    }

    // Whether a pair has a result on the board, or doesn't play it and the board is complete.
    fn is_over_for(&self, pair: Pair) -> bool
        ensures { result ≡ (not (has_still_to_play self.now.public.now (member_of (OfPair pair)) self.now.board)
            && (plays_board self.now.public.now (member_of (OfPair pair)) self.now.board
            || seating.is_complete self.now.public.now self.now.board)) }
    {
        if self.is_unplayed && !self.is_complete {
            return false;
        }
        match self.public.movement.cell_of(pair, self.board) {
            Some(cell) => self.public.live.contains(cell),
            None => self.is_complete,
        }
    }
}
