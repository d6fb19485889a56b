ghost use Rattle.std.specs.Prelude.{◌≡◌, ℕ, ◌||◌, ◌<◌, ◌≤◌, length, [], replicate, IfOk};
ghost use Rattle.movement.specs.Movement.{boards_of, most_boards};
ghost use Rattle.rbac.specs.Account.{most_users};
ghost use Rattle.rbac.specs.Authorization.{IsValid};
ghost use Rattle.session_book.specs.Exposure.{users_of};
ghost use Rattle.session_book.specs.Touched.{touched_at, touched_before};
ghost use Rattle.session_commands.specs.declared.touched.Touched.TheVariants.{Board, User};
ghost use Rattle.session_book.specs.ExposureTable.{is_noted, user_at, SeesAs, IsAsked, IsNoted, one_board, first_boards, first_users};

use crate::board_sight::BoardSight;
use disclosure_rules::{Boards, Fact, Viewer, decide};
use rbac::{Account, Roles};
use session_commands::Touched;
use session_commands::room::filled;
use session_roles::Role;
use session_state::State;
use std::alloc::{AllocError, Global};
use std::marker::Model;
use user_names::Name;

/// Who was shown something of which board: clauses see, for the account at each place, the list of the boards,
/// ascending.
#[derive(Drop)]
pub struct Exposure {
    boards: Vec<Boards>,
}

impl Model for Exposure {
    ghost use Rattle.std.specs.Prelude.{◌≡◌, ℕ, List, vec_len};
    ghost use Rattle.rbac.specs.Account.{most_users};

    ghost Value = { List (List ℕ) };

    ghost view = { λ exposure. exposure.boards.items };

    ghost invariant = { λ exposure. vec_len exposure.boards ≡ most_users };
}

impl Exposure {
    /// What users are shown at the opening of a session, with room for all users that it can have.
    pub fn at_opening(alloc: Global, opening: &State) -> Result<Exposure, AllocError>
        ensures noted { IfOk result (λ exposure. IsNoted opening.now [] opening.now exposure) }
        ensures boards { IfOk result (λ _. boards_of opening.now.public.movement ≤ most_boards) }
    {
        let mut exposure = Exposure::new(alloc)?;
        exposure.ask_opening(opening);
        Ok(exposure)
    }

    // Nobody was shown anything, with room for all users.
    fn new(alloc: Global) -> Result<Exposure, AllocError>
        ensures { IfOk result (λ exposure. exposure ≡ replicate most_users []) }
    {
        let boards = filled(alloc, Boards::new(), Roles::MOST_USERS)?;
        Ok(Exposure { boards })
    }

    /// Goes back to what users are shown at the opening of a session. It takes no memory.
    pub fn set_back(&mut self, opening: &State)
        ensures { IsNoted opening.now [] opening.now self.new }
    {
        self.clear();
        self.ask_opening(opening);
    }

    // Nobody was shown anything.
    fn clear(&mut self)
        ensures { self.new ≡ replicate most_users [] }
    {
        self.boards.clear();
        let Ok(()) = self.boards.resize(Roles::MOST_USERS, Boards::new()) else {
            unreachable!();
        };
    }

    // Notes what users are shown at the opening, where nothing is noted.
    fn ask_opening(&mut self, opening: &State)
        requires { self.old ≡ replicate most_users [] }
        ensures noted { IsNoted opening.now [] opening.now self.new }
        ensures boards { boards_of opening.now.public.movement ≤ most_boards }
    {
        let boards = opening.public().movement.boards();
        self.ask_all(opening, boards);
    }

    /// Whether the board is noted for the account at a place.
    pub fn contains(&self, place: usize, board: u8) -> bool
        requires place { place < most_users }
        requires from { 1 ≤ board }
        requires to { board ≤ most_boards }
        ensures { result ≡ is_noted self.now place board }
    {
        self.boards[place].contains(board)
    }

    // Notes a board for the account at a place.
    fn insert(&mut self, place: usize, board: u8)
        requires place { place < most_users }
        requires from { 1 ≤ board }
        requires to { board ≤ most_boards }
        ensures { (p b : ℕ) → 1 ≤ b → b ≤ most_boards →
            is_noted self.new p b ≡ (is_noted self.old p b || one_board place board p b) }
    {
        self.boards[place].insert(board);
    }

    // Notes what the users are allowed, of so many boards: each that isn't noted yet is asked about.
    fn ask_all(&mut self, state: &State, boards: u8)
        requires { boards ≤ most_boards }
        ensures asked { IsAsked state.now (first_users (length (users_of state.now)) boards) self.old self.new }
        ensures valid { IsValid state.now.roles }
    {
        let accounts = state.accounts();
        for place in 0..accounts.len() {
            self.ask_boards(state, place, accounts[place].name, boards);
        }
    }

    /// Notes what the users are allowed of what is touched, of so many boards: what is noted isn't asked about.
    pub fn ask_touched(&mut self, state: &State, touched: &Touched, boards: u8)
        requires { boards ≤ most_boards }
        ensures asked { IsAsked state.now (touched_before state.now touched.now boards (length (users_of state.now)))
            self.old self.new }
        ensures valid { IsValid state.now.roles }
    {
        let accounts = state.accounts();
        match touched {
            Touched::Nothing => {}
            Touched::Board(board) => self.ask_board(state, accounts, *board, boards),
            Touched::User(name) => self.ask_user(state, accounts, *name, boards),
            Touched::Everything => self.ask_all(state, boards),
        }
    }

    // Notes a board for the users who are allowed it, if it is one of the first.
    fn ask_board(&mut self, state: &State, accounts: &[Account], board: u8, boards: u8)
        requires accounts { accounts.now ≡ state.now.roles.accounts }
        requires valid { IsValid state.now.roles }
        requires boards { boards ≤ most_boards }
        ensures { IsAsked state.now (touched_before state.now (Board board) boards (length (users_of state.now)))
            self.old self.new }
    {
        if board < 1 || board > boards {
            return;
        }
        let mut sight = BoardSight::new(state, board);
        for place in 0..accounts.len() {
            self.ask_sight(state, place, accounts[place].name, &mut sight);
        }
    }

    // Notes a board for the user at a place, where its hands are allowed. Who was shown something of it before isn't asked
    // about again.
    fn ask_sight(&mut self, state: &State, place: usize, user: Name, sight: &mut BoardSight<'_>)
        requires state { sight.old.state.now ≡ state.now }
        requires room { place < most_users }
        requires place { place < length state.now.roles.accounts }
        requires user { user ≡ user_at state.now place }
        requires from { 1 ≤ sight.old.board }
        requires to { sight.old.board ≤ most_boards }
        ensures asked { IsAsked state.now (one_board place sight.old.board) self.old self.new }
        ensures state { sight.new.state ≡ sight.old.state }
        ensures board { sight.new.board ≡ sight.old.board }
    {
        let board = sight.board();
        if self.contains(place, board) {
            return;
        }
        if sight.is_of(place, user) {
            self.insert(place, board);
        }
    }

    // Notes what the users of a name are allowed.
    fn ask_user(&mut self, state: &State, accounts: &[Account], name: Name, boards: u8)
        requires accounts { accounts.now ≡ state.now.roles.accounts }
        requires valid { IsValid state.now.roles }
        requires boards { boards ≤ most_boards }
        ensures { IsAsked state.now (touched_before state.now (User name) boards (length (users_of state.now)))
            self.old self.new }
    {
        for place in 0..accounts.len() {
            self.ask_named(state, place, accounts[place].name, name, boards);
        }
    }

    // Notes what the user at a place is allowed, if it has the name.
    fn ask_named(&mut self, state: &State, place: usize, user: Name, name: Name, boards: u8)
        requires room { place < most_users }
        requires place { place < length state.now.roles.accounts }
        requires user { user ≡ user_at state.now place }
        requires boards { boards ≤ most_boards }
        ensures { IsAsked state.now (touched_at state.now (User name) boards place) self.old self.new }
    {
        if !(user == name) {
            return;
        }
        self.ask_boards(state, place, user, boards);
    }

    // Notes what the user at a place is allowed, of so many boards: each that isn't noted yet is asked about.
    fn ask_boards(&mut self, state: &State, place: usize, user: Name, boards: u8)
        requires room { place < most_users }
        requires place { place < length state.now.roles.accounts }
        requires user { user ≡ user_at state.now place }
        requires boards { boards ≤ most_boards }
        ensures { IsAsked state.now (first_boards place boards) self.old self.new }
    {
        let viewer = onlooker(state, place, user);
        for k in 0..boards {
            self.ask(state, &viewer, place, k + 1);
        }
    }

    // Notes a board for the user at a place, where its hands are allowed. Who was shown something of it before isn't
    // asked about again.
    fn ask(&mut self, state: &State, viewer: &Viewer, place: usize, board: u8)
        requires room { place < most_users }
        requires viewer { SeesAs state.now place viewer.now }
        requires from { 1 ≤ board }
        requires to { board ≤ most_boards }
        ensures { IsAsked state.now (one_board place board) self.old self.new }
    {
        let hands = Fact::Hands(board);
        if !self.contains(place, board) && decide(state.public(), viewer, hands).is_none() {
            self.insert(place, board);
        }
    }
}

// Who sees the hands of just the boards that the user at a place sees: the user, by roles that no name is looked for, and
// without the seat unless it is a contestant's, since the policy asks of no other where they sit.
fn onlooker(state: &State, place: usize, user: Name) -> Viewer
    requires place { place < length state.now.roles.accounts }
    requires user { user ≡ user_at state.now place }
    ensures { SeesAs state.now place result }
{
    let unseated = Viewer {
        roles: state.roles().authorized_at(place),
        seat: None,
    };
    if !unseated.is_authorized(Role::Contestant) {
        return unseated;
    }
    Viewer {
        roles: unseated.roles,
        seat: state.seat(user),
    }
}
