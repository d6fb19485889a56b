//! Who sees a board, asked user after user.

ghost use Rattle.std.specs.Prelude.{◌≡◌, ◌<◌, ℕ, true, false, [], None, is_none, length};
ghost use Rattle.disclosure_rules.specs.LiveCells.{tables_at};
ghost use Rattle.disclosure_rules.specs.Policy.{first_rule};
ghost use Rattle.disclosure_rules.specs.Seating.{is_complete};
ghost use Rattle.disclosure_rules.specs.declared.fact.Fact.TheVariants.{Hands};
ghost use Rattle.session_book.specs.Exposure.{sees_hands};
ghost use Rattle.session_book.specs.ExposureTable.{user_at, IsUnplayed};

use disclosure_rules::{Fact, Public, Viewer, decide};
use session_roles::{Role, RoleSet};
use session_state::State;
use small_sets::NumberSet;
use user_names::Name;

/// Who is allowed the hands of a board. The policy asks of contestants alone where they sit, and not even of them while the board
/// is unplayed: so it is asked once for users who have the same roles and stand next to one another.
#[derive(Drop)]
pub(crate) struct BoardSight<'a> {
    state: &'a State,
    board: u8,
    is_unplayed: bool,
    // Who was asked about last, by the roles, and whether that user is allowed the hands.
    roles: Option<RoleSet>,
    sees: bool,
    ghost unplayed: { is_unplayed ≡ true → IsUnplayed state.now.public board },
    ghost told: { sees ≡ is_none (first_rule state.now.public (record { roles = roles; seat = None }) (Hands board)) },
}

impl<'a> BoardSight<'a> {
    /// Nobody was asked about yet.
    pub(crate) fn new(state: &'a State, board: u8) -> BoardSight<'a>
        ensures state { result.state.now ≡ state.now }
        ensures board { result.board ≡ board }
    {
        let public = state.public();
        let sees = is_allowed(public, &unseated(None), board);
        BoardSight {
            state,
            board,
            is_unplayed: is_unplayed(public, board),
            roles: None,
            sees,
        }
    }

    /// The board.
    pub(crate) fn board(&self) -> u8
        ensures { result ≡ self.now.board }
    {
        self.board
    }

    /// Whether the user at a place is allowed the board's hands.
    pub(crate) fn is_of(&mut self, place: usize, user: Name) -> bool
        requires place { place < length self.old.state.now.roles.accounts }
        requires user { user ≡ user_at self.old.state.now place }
        ensures sees { result ≡ sees_hands self.old.state.now (user_at self.old.state.now place) self.old.board }
        ensures state { self.new.state ≡ self.old.state }
        ensures board { self.new.board ≡ self.old.board }
    {
        let unseated = unseated(self.state.roles().authorized_at(place));
        if self.is_unplayed || !unseated.is_authorized(Role::Contestant) {
            return self.is_of_roles(unseated.roles);
        }
        let seated = Viewer {
            roles: unseated.roles,
            seat: self.state.seat(user),
        };
        is_allowed(self.state.public(), &seated, self.board)
    }

    // Whether a user with these roles who sits nowhere is allowed the board's hands.
    fn is_of_roles(&mut self, roles: Option<RoleSet>) -> bool
        ensures sees { result ≡ is_none (first_rule self.old.state.now.public (record { roles = roles; seat = None })
            (Hands self.old.board)) }
        ensures state { self.new.state ≡ self.old.state }
        ensures board { self.new.board ≡ self.old.board }
    {
        if self.roles == roles {
            return self.sees;
        }
        self.roles = roles;
        self.sees = is_allowed(self.state.public(), &unseated(roles), self.board);
        self.sees
    }
}

// Whether a user is allowed a board's hands.
fn is_allowed(public: &Public, viewer: &Viewer, board: u8) -> bool
    ensures { result ≡ is_none (first_rule public.now viewer.now (Hands board)) }
{
    decide(public, viewer, Fact::Hands(board)).is_none()
}

// A user with these roles who sits nowhere.
fn unseated(roles: Option<RoleSet>) -> Viewer
    ensures { result ≡ record { roles = roles; seat = None } }
{
    Viewer { roles, seat: None }
}

// Whether no table has a result on a board, and one is scheduled to play it.
fn is_unplayed(public: &Public, board: u8) -> bool
    ensures { result ≡ true → IsUnplayed public.now board }
{
    public.live.tables(board) == NumberSet::new() && !public.is_complete(board)
}
