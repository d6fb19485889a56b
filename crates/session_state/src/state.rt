ghost use Rattle.std.specs.Prelude.{◌≡◌, ◌-◌, ◌<◌, ◌≤◌, ◌↔◌, [], length, slice_get, vec_len, vec_capacity, Some, None, IfOk, IsTrue, replicate};
ghost use Rattle.movement.specs.Movement.{boards_of, most_tables, most_boards};
ghost use Rattle.rbac.specs.Account.{most_users};
ghost use Rattle.rbac.specs.Authorization.{HasPermission, IsValid, has_permission};
ghost use Rattle.disclosure_rules.specs.LiveCells.{is_live};
ghost use Rattle.disclosure_rules.specs.Policy.{first_rule};
ghost use Rattle.session_state.specs.Accounts.{has_account};
ghost use Rattle.session_state.specs.Seats.{is_taken, AreSeated, AreSeatsOf};
ghost use Rattle.session_state.specs.Apply.{apply};
ghost use Rattle.session_commands.specs.CellState.{has_result};
ghost use Rattle.session_state.specs.Refusal.{refusal_of};
ghost use Rattle.session_state.specs.SessionState.{authorized_of, seat_of, viewer_of, cell_at, table_at, is_dealt, with_cell, cell_index, most_cells, IsPlaced, AreLive};
ghost use Rattle.session_commands.specs.declared.cell_state.CellState.TheVariants.{Empty};

mod accounts;
mod commands;
mod progress;
mod readers;
mod results;
mod seats;
mod solved;

use crate::acceptance::{hindrance, refusal};
use crate::seated::Seated;
use cards::{Deal, Play};
use disclosure_rules::{Fact, Marks, Public, Rule, Seat, Viewer, decide};
use movement::{Cell, Movement};
use notices::Notices;
use rbac::{Account, Roles};
use scoring::Outcome;
use session_commands::room::{filled, with_room};
use session_commands::{Actor, CellState, Command, Entry, Refusal};
use session_roles::{Operation, RoleSet};
use solver_results::{DdTable, PlayCosts};
use std::alloc::{AllocError, Global};
use std::marker::Model;
use user_names::{Digest, Name, ShownName};

/// How many boards there is room for.
const MOST_BOARDS: usize = Movement::MOST_BOARDS as usize;

/// How many cells there is room for: each table on each board.
const MOST_CELLS: usize = Movement::MOST_TABLES as usize * MOST_BOARDS;

/// What a session has come to.
pub struct State {
    roles: Roles,
    digests: Vec<Digest>,
    names: Vec<ShownName>,
    seats: Vec<Seated>,
    public: Public,
    cells: Vec<CellState>,
    deals: Vec<Deal>,
    tables: Vec<Option<DdTable>>,
    notices: Notices,
}

// It is written out, so that a caller does not prove again how each part is dropped.
impl Drop for State {
    fn drop(self) {
        let State {
            roles: _,
            digests: _,
            names: _,
            seats: _,
            public: _,
            cells: _,
            deals: _,
            tables: _,
            notices: _,
        } = self;
    }
}

impl Model for State {
    ghost use Rattle.session_state.specs.SessionState.{SessionState, session_code};

    ghost Value = { SessionState };

    ghost coded = { session_code };

    ghost use Rattle.session_state.specs.KeptState.{IsKeptState};

    ghost view = { λ s. record {
      roles = s.roles;
      digests = s.digests.items;
      names = s.names.items;
      seats = s.seats.items;
      public = s.public;
      cells = s.cells.items;
      deals = s.deals.items;
      tables = s.tables.items;
      notices = s.notices;
    } };

    ghost invariant = { IsKeptState };
}

impl State {
    /// A state in which nothing is entered yet.
    pub fn new(
        alloc: Global,
        roles: Roles,
        digests: Vec<Digest>,
        names: Vec<ShownName>,
        seats: Vec<Seated>,
        public: Public,
        deals: Vec<Deal>,
        notices: Notices,
    ) -> Result<State, AllocError>
        requires marks { length public.marks ≡ most_boards }
        requires edition { roles.edition ≡ public.edition }
        requires live { public.live ≡ replicate most_boards [] }
        requires deals { boards_of public.movement ≤ length deals.items }
        requires digests { length digests.items ≡ length roles.accounts }
        requires digest_room { most_users ≤ vec_capacity digests }
        requires names { length names.items ≡ length roles.accounts }
        requires name_room { most_users ≤ vec_capacity names }
        requires seats { most_users ≤ vec_capacity seats }
        requires users { length roles.accounts ≤ most_users }
        requires seated { AreSeated roles seats.items }
        requires placed { AreSeatsOf public.movement seats.items }
        ensures { IfOk result (λ state. state ≡ record {
          roles = roles;
          digests = digests.items;
          names = names.items;
          seats = seats.items;
          public = public;
          cells = replicate most_cells Empty;
          deals = deals.items;
          tables = replicate most_boards None;
          notices = notices;
        }) }
    {
        let cells = filled(alloc, CellState::Empty, MOST_CELLS)?;
        let tables = filled(alloc, None, MOST_BOARDS)?;
        Ok(State {
            roles,
            digests,
            names,
            seats,
            public,
            cells,
            deals,
            tables,
            notices,
        })
    }

    /// A copy, with room for all that a state can need.
    pub fn copy(&self, alloc: Global) -> Result<State, AllocError>
        ensures { IfOk result (λ copy. copy ≡ self.now) }
    {
        let roles = self.roles.copy(alloc)?;
        let digests = with_room(alloc, &self.digests, Roles::MOST_USERS)?;
        let names = with_room(alloc, &self.names, Roles::MOST_USERS)?;
        let seats = with_room(alloc, &self.seats, Roles::MOST_USERS)?;
        self.copy_boards(alloc, roles, digests, names, seats)
    }

    // A copy over copies of the users' roles, digests, names and seats, with room for all that a state can need.
    fn copy_boards(
        &self,
        alloc: Global,
        roles: Roles,
        digests: Vec<Digest>,
        names: Vec<ShownName>,
        seats: Vec<Seated>,
    ) -> Result<State, AllocError>
        requires roles { roles ≡ self.now.roles }
        requires digests { digests.items ≡ self.now.digests }
        requires names { names.items ≡ self.now.names }
        requires seats { seats.items ≡ self.now.seats }
        requires digest_room { most_users ≤ vec_capacity digests }
        requires name_room { most_users ≤ vec_capacity names }
        requires seat_room { most_users ≤ vec_capacity seats }
        ensures { IfOk result (λ copy. copy ≡ self.now) }
    {
        let cells = with_room(alloc, &self.cells, MOST_CELLS)?;
        let deals = with_room(alloc, &self.deals, self.deals.len())?;
        let tables = with_room(alloc, &self.tables, MOST_BOARDS)?;
        let notices = self.notices.copy(alloc)?;
        Ok(State {
            roles,
            digests,
            names,
            seats,
            public: self.public.copy(),
            cells,
            deals,
            tables,
            notices,
        })
    }

    /// Becomes a copy of another state of the same deals, which tells the same of the session, in the room that it has.
    pub fn copy_from(&mut self, other: &State)
        requires deals { self.old.deals ≡ other.now.deals }
        requires notices { self.old.notices ≡ other.now.notices }
        ensures { self.new ≡ other.now }
    {
        self.roles.copy_from(&other.roles);
        refill(&mut self.digests, &other.digests);
        refill(&mut self.names, &other.names);
        refill(&mut self.seats, &other.seats);
        self.public = other.public.copy();
        refill(&mut self.cells, &other.cells);
        refill(&mut self.tables, &other.tables);
    }

    /// What every member of the session may see.
    pub fn public(&self) -> &Public
        ensures public { result.now ≡ self.now.public }
        ensures edition { self.now.roles.edition ≡ self.now.public.edition }
        ensures live { AreLive self.now.public.live self.now.cells }
        ensures dealt { boards_of self.now.public.movement ≤ length self.now.deals }
    {
        &self.public
    }

    /// What the session tells its members of itself.
    pub fn notices(&self) -> &Notices
        ensures { result.now ≡ self.now.notices }
    {
        &self.notices
    }

    /// The accounts, in the order of adding.
    pub fn accounts(&self) -> &[Account]
        ensures accounts { result.now ≡ self.now.roles.accounts }
        ensures valid { IsValid self.now.roles }
    {
        self.roles.accounts()
    }

    /// The roles that a user is authorized for; none where the user has no account.
    pub fn authorized(&self, name: Name) -> Option<RoleSet>
        ensures roles { result ≡ authorized_of self.now name }
        ensures valid { IsValid self.now.roles }
    {
        self.roles.authorized(name.as_str())
    }

    /// Whether a user has the permission for an operation.
    pub fn check_access(&self, name: Name, operation: Operation) -> bool
        ensures permission { IsTrue result ↔ HasPermission self.now.roles name operation }
        ensures test { result ≡ has_permission self.now.roles name operation }
        ensures valid { IsValid self.now.roles }
    {
        self.roles.check_access(name.as_str(), operation)
    }

    /// Where a user sits, if the user sits somewhere.
    pub fn seat(&self, name: Name) -> Option<Seat>
        ensures { result ≡ seat_of self.now name }
    {
        self.seats
            .iter()
            .find(|seated| seated.name == name)
            .map(|seated| seated.seat)
    }

    /// Whether there is a user of this name.
    #[tactic(auto, using(crate::proofs::AccountLemmas::found_account))]
    pub fn has_account(&self, name: Name) -> bool
        ensures { result ≡ has_account self.now.roles name }
    {
        self.roles.authorized(name.as_str()).is_some()
    }

    /// Whether somebody sits at a place of a pair.
    pub fn is_taken(&self, seat: Seat) -> bool
        ensures { result ≡ is_taken self.now.seats seat }
    {
        self.seats.iter().any(|seated| seated.seat == seat)
    }

    /// What is known of a cell.
    pub fn cell(&self, cell: Cell) -> CellState
        requires from_table { 1 ≤ cell.table }
        requires to_table { cell.table ≤ most_tables }
        requires from_board { 1 ≤ cell.board }
        requires to_board { cell.board ≤ most_boards }
        ensures known { result ≡ cell_at self.now cell }
        ensures live { is_live self.now.public.live cell ≡ has_result result }
    {
        self.cells[cell_index(cell)]
    }

    /// The hands of a board.
    pub fn deal(&self, board: u8) -> Deal
        requires from { 1 ≤ board }
        requires to { board ≤ boards_of self.now.public.movement }
        ensures { slice_get self.now.deals (board - 1) ≡ Some result }
    {
        self.deals[board as usize - 1]
    }

    /// Whether these are the hands of a board.
    pub fn is_dealt(&self, board: u8, deal: Deal) -> bool
        requires { 1 ≤ board }
        ensures { result ≡ is_dealt self.now board deal }
    {
        match self.deals.get(board as usize - 1) {
            Some(own) => deal == *own,
            None => false,
        }
    }

    /// The double-dummy table of a board, if it is solved.
    pub fn table(&self, board: u8) -> Option<DdTable>
        requires from { 1 ≤ board }
        requires to { board ≤ most_boards }
        ensures { result ≡ table_at self.now board }
    {
        self.tables[board as usize - 1]
    }

    /// What is marked on a board.
    pub fn marks(&self, board: u8) -> Marks
        requires from { 1 ≤ board }
        requires to { board ≤ most_boards }
        ensures { slice_get self.now.public.marks (board - 1) ≡ Some result }
    {
        let marks = &self.public.marks;
        marks[board as usize - 1]
    }

    /// A user, as the policy sees one.
    pub fn viewer(&self, name: Name) -> Viewer
        ensures { result ≡ viewer_of self.now name }
    {
        Viewer {
            roles: self.authorized(name),
            seat: self.seat(name),
        }
    }

    /// The first rule that forbids a fact to a user, if one does: `decide` for a viewer who is looked up for this fact
    /// alone. Who asks of several facts takes the viewer once.
    pub fn decide(&self, name: Name, fact: Fact) -> Option<Rule>
        ensures { result ≡ first_rule self.now.public (viewer_of self.now name) fact }
    {
        decide(&self.public, &self.viewer(name), fact)
    }

    /// Why a command is refused here, where the journal has so many entries, if it is. The spoiler is the first
    /// user who sits at the command's cell and was shown something of its board.
    pub fn refusal(
        &self,
        spoiler: Option<Name>,
        actor: Actor,
        command: &Command,
        entries: usize,
    ) -> Option<Refusal>
        ensures { result ≡ refusal_of self.now spoiler actor command.now entries }
    {
        refusal(self, spoiler, actor, command, entries)
    }

    /// Takes an entry in: one that the state hinders changes nothing.
    pub fn absorb(&mut self, entry: &Entry)
        ensures { self.new ≡ apply self.old entry.now }
    {
        if hindrance(self, &entry.command).is_none() {
            self.take_effect(&entry.command);
        }
    }
}

// Where a cell stands among the cells.
fn cell_index(cell: Cell) -> usize
    requires { IsPlaced cell }
    ensures place { result ≡ cell_index cell }
    ensures below { result < most_cells }
{
    (cell.board as usize - 1) * Movement::MOST_TABLES as usize + (cell.table as usize - 1)
}

// Puts copies of other items in place of all items, in the room that is there.
fn refill<T: Copy + Drop>(items: &mut Vec<T>, others: &[T])
    requires { length others.now ≤ vec_capacity items.old }
    ensures items { items.new.items ≡ others.now }
    ensures len { vec_len items.new ≡ length others.now }
    ensures room { vec_capacity items.old ≤ vec_capacity items.new }
{
    items.clear();
    let Ok(()) = items.extend_from_slice(others) else {
        unreachable!();
    };
}
