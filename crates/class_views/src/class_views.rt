ghost use Rattle.std.specs.Prelude.{◌≡◌, ◌≢◌, ◌≤◌, ◌++◌, ℕ, Some, true, is_none, length, map, IfNone, IfOk, IfSome, OnOk};
ghost use Rattle.std.specs.List.{range_with_len};
ghost use Rattle.movement.specs.Movement.{boards_of, has_board, most_tables, IsSection};
ghost use Rattle.disclosure_rules.specs.declared.fact.Fact.TheVariants as fact;
ghost use Rattle.disclosure_rules.specs.Policy.{first_rule};
ghost use Rattle.session_state.specs.Apply.{apply};
ghost use Rattle.session_state.specs.SessionState.{AreLive};
ghost use Rattle.standings.specs.Ranking.{pairs_on, pairs_of};
ghost use Rattle.class_views.specs.Classes.{class_of, is_kept_class, is_kept_pair};
ghost use Rattle.class_views.specs.Totals.{may_count, total_for};

use crate::class_view::is_shown_boards;
use crate::kept::Kept;
use crate::user_class::{PAIRS, UserClass, place_of};
use disclosure_rules::Viewer;
use movement::Movement;
use scoring::Standing;
use session_commands::{Command, Entry};
use session_state::State;
use std::alloc::{AllocError, Global};
use std::marker::Model;
use table_terms::{Pair, Side};

/// A state, and what is kept beside it of what each class of its users is shown; clauses see the state.
pub struct ClassViews {
    state: State,
    kept: Kept,
}

// It is written out, so that a caller does not prove again how each part is dropped.
impl Drop for ClassViews {
    fn drop(self) {
        let ClassViews { state: _, kept: _ } = self;
    }
}

impl Model for ClassViews {
    ghost use Rattle.movement.specs.Movement.{IsSection};
    ghost use Rattle.session_state.specs.SessionState.{SessionState, session_code, AreLive};
    ghost use Rattle.class_views.specs.Kept.{IsKeptOf};

    ghost Value = { SessionState };

    ghost coded = { session_code };

    ghost view = { λ v. v.state };

    ghost invariant = { λ v.
        IsKeptOf v.state v.kept.classes.items v.kept.rows.items
        × (IsSection v.state.public.movement × AreLive v.state.public.live v.state.cells) };
}

impl ClassViews {
    /// A state with what is kept beside it: this takes all the room that it ever needs.
    pub fn open(alloc: Global, state: State) -> Result<ClassViews, AllocError>
        ensures { IfOk result (λ views. views ≡ state) }
    {
        let kept = Kept::open(alloc, &state)?;
        Ok(ClassViews { state, kept })
    }

    /// The state beside which the classes are kept.
    pub fn state(&self) -> &State
        ensures { result.now ≡ self.now }
    {
        &self.state
    }

    /// Takes in the next entry. Of what is kept only that of the board changes that the entry is about, and nothing where it
    /// is about a table that has no result before it and none after it; it takes no memory.
    pub fn absorb(&mut self, entry: &Entry)
        ensures { self.new ≡ apply self.old entry.now }
    {
        let counted = may_count(&self.state, &entry.command);
        self.state.absorb(entry);
        let counts = may_count(&self.state, &entry.command);
        if counted || counts {
            self.kept.follow(&self.state, &entry.command);
        }
    }

    /// Whether a user is shown the hands of a board.
    pub fn sees(&self, viewer: &Viewer, board: u8) -> bool
        requires { has_board self.now.public.movement board ≡ true }
        ensures { result ≡ is_none (first_rule self.now.public viewer.now (fact.Hands board)) }
    {
        match UserClass::of(viewer) {
            Some(class) => {
                // what is kept knows no embargo, so that the end of one changes nothing of it
                is_shown_boards(self.state.public(), class)
                    && self.kept.classes[class.place() as usize]
                        .boards
                        .contains(board)
            }
            None => false,
        }
    }

    /// How each pair of the section stands by the results of the boards whose hands a user is shown.
    pub fn standings(&self, alloc: Global, viewer: &Viewer) -> Result<Vec<Standing>, AllocError>
        ensures standings { IfOk result (λ standings. standings.items
            ≡ map (total_for self.now (class_of viewer.now)) (pairs_of self.now.public.movement)) }
        ensures section { IsSection self.now.public.movement }
        ensures live { AreLive self.now.public.live self.now.cells }
        ensures dealt { boards_of self.now.public.movement ≤ length self.now.deals }
    {
        let class = UserClass::of(viewer);
        let movement = &self.state.public().movement;
        let mut standings = Vec::with_capacity(alloc, PAIRS as usize)?;
        add_side(&mut standings, self, class, movement, Side::NorthSouth)?;
        add_side(&mut standings, self, class, movement, Side::EastWest)?;
        Ok(standings)
    }

    // How a pair stands by the boards that a class is shown.
    fn total(&self, class: Option<UserClass>, pair: Pair) -> Standing
        requires class { IfSome class (λ class. is_kept_class class ≡ true) }
        requires pair { is_kept_pair pair ≡ true }
        ensures { result ≡ total_for self.now class pair }
    {
        match class {
            Some(class) => self.class_total(class, pair),
            None => nothing_earned(pair),
        }
    }

    // How a pair stands by the boards that the users of a class are shown.
    fn class_total(&self, class: UserClass, pair: Pair) -> Standing
        requires class { is_kept_class class ≡ true }
        requires pair { is_kept_pair pair ≡ true }
        ensures { result ≡ total_for self.now (Some class) pair }
    {
        if is_shown_boards(self.state.public(), class) {
            self.kept.classes[class.place() as usize]
                .totals
                .at(place_of(pair))
        } else {
            nothing_earned(pair)
        }
    }
}

/// Whether what a command is about may count or be shown: all but a table that has no result.
fn may_count(state: &State, command: &Command) -> bool
    ensures counts { result ≡ may_count state.now command.now }
    ensures live { AreLive state.now.public.live state.now.cells }
{
    let live = &state.public().live;
    match command.cell() {
        Some(cell) => live.contains(cell),
        None => true,
    }
}

/// How a pair stands by no board.
fn nothing_earned(pair: Pair) -> Standing
    ensures { result ≡ record { pair = pair; earned = 0; tops = 0 } }
{
    Standing {
        pair,
        earned: 0,
        tops: 0,
    }
}

/// Adds how the pairs of a movement that are named for a side stand by the boards that a class is shown.
fn add_side(
    standings: &mut Vec<Standing>,
    views: &ClassViews,
    class: Option<UserClass>,
    movement: &Movement,
    side: Side,
) -> Result<(), AllocError>
    requires class { IfSome class (λ class. is_kept_class class ≡ true) }
    ensures { OnOk result (standings.new.items ≡ standings.old.items
        ++ map (total_for views.now class) (pairs_on movement.now side 1 most_tables)) }
{
    for before in 0..Movement::MOST_TABLES {
        let pair = Pair {
            side,
            number: before + 1,
        };
        if movement.has_pair(pair) {
            standings.push(views.total(class, pair))?;
        }
    }
    Ok(())
}
