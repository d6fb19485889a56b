ghost use Rattle.std.specs.Prelude.{◌≡◌, ℕ, ◌+◌, ◌-◌, ◌≤◌, ◌<◌, ◌⊎◌, ◌||◌, Bool, false, List, [], ◌∷◌, ◌++◌, None, Some, take, length, slice_get, slice_index_or, map, Contains, IfOk, IfErr, OnOk, OnErr, IfSome, IfNone, IsTrue, ◌↔◌, true};
ghost use Rattle.std.specs.Option.{option_copied};
ghost use Rattle.movement.specs.Movement.{IsCell, boards_of, most_boards};
ghost use Rattle.disclosure_rules.specs.Seating.{is_seated_at};
ghost use Rattle.rbac.specs.Account.{most_users};
ghost use Rattle.rbac.specs.Authorization.{HasPermission, IsValid};
ghost use Rattle.session_roles.specs.declared.operation.Operation.TheVariants.{Audit};
ghost use Rattle.session_book.specs.Audit.{audit_rows};
ghost use Rattle.session_book.specs.declared.audit.AuditError.TheVariants.{NotPermitted};
ghost use Rattle.session_book.specs.Exposure.{Exposed, is_exposed, spoiler_of, spoiler_at, spoils, result_cell, users_of};
ghost use Rattle.session_book.specs.ExposureTable.{user_at, IsNoted};
ghost use Rattle.session_book.specs.Journal.{replay, IsAccepted, MayFollow, refusal_at, state_of, entry_of};
ghost use Rattle.session_state.specs.Refusal.{most_entries};
ghost use Rattle.session_state.specs.SessionState.{SessionState, viewer_of};
ghost use Rattle.session_book.specs.Run.{Runs, IsTried, stops, answer_of, first_number, last_number, most_commands};
ghost use Rattle.session_commands.specs.declared.actor.Actor.TheVariants.{Solver};
ghost use Rattle.session_commands.specs.declared.command.Command.{Command};
ghost use Rattle.session_book.specs.declared.answer.Answer.{Answer};
ghost use Rattle.session_commands.specs.declared.entry.Entry.{Entry};
ghost use Rattle.session_commands.specs.declared.refusal.Refusal.TheVariants.{OutOfMemory};
ghost use Rattle.session_opening.specs.Opening.{opening_of};
ghost use Rattle.session_opening.specs.OpeningRefusal.{opening_refusal};
ghost use Rattle.session_opening.specs.declared.opening_refusal.OpeningRefusal.TheVariants as opening_cause;

use crate::answer::Answer;
use crate::audit::{AuditError, AuditRows, rows_of};
use crate::exposure::Exposure;
use crate::submission::Submission;
use disclosure_rules::{Viewer, is_seated_at};
use movement::Cell;
use rbac::Account;
use session_commands::room::{put_copy, put_item};
use session_commands::{Actor, Command, Entry, Refusal};
use session_opening::{Config, OpeningRefusal};
use session_roles::{Edition, Operation};
use session_state::State;
use std::alloc::{AllocError, Global};
use std::marker::Model;
use user_names::Name;

/// For how many entries a new book has room.
const FIRST_ROOM: usize = 256;

/// A session's journal, beside the state that it leads to from the opening, and who was shown something of which board
/// on the way.
pub struct Book {
    opening: State,
    journal: Vec<Entry>,
    state: State,
    exposure: Exposure,
    alloc: Global,
}

// It is written out, so that a caller does not prove again how each part is dropped.
impl Drop for Book {
    fn drop(self) {
        let Book {
            opening: _,
            journal: _,
            state: _,
            exposure: _,
            alloc: _,
        } = self;
    }
}

impl Model for Book {
    ghost use Rattle.std.specs.Prelude.{◌-◌, vec_len, vec_capacity};
    ghost use Rattle.session_book.specs.Journal.{Ledger, ledger_code};

    ghost Value = { Ledger };

    ghost coded = { ledger_code };

    ghost use Rattle.session_book.specs.KeptBook.{IsKeptBook};

    ghost view = { λ b. record {
      opening = b.opening;
      journal = b.journal.items;
      spare = vec_capacity b.journal - vec_len b.journal;
    } };

    ghost invariant = { IsKeptBook };
}

impl Book {
    /// How many commands a batch has at most.
    pub const MOST_COMMANDS: usize = 64;

    /// The book of the session that this opens, or the first cause not to open it. Its journal is empty, and there is room
    /// for all that the session's state can need.
    pub fn open(alloc: Global, config: Config) -> Result<Book, OpeningRefusal>
        requires { boards_of config.movement ≤ length config.boards }
        ensures opening { IfOk result (λ book. book.opening ≡ opening_of config) }
        ensures journal { IfOk result (λ book. book.journal ≡ []) }
        ensures ok { IfOk result (λ book. opening_refusal config ≡ None) }
        ensures err { IfErr result (λ cause. (opening_refusal config ≡ Some cause)
            ⊎ ((cause ≡ opening_cause.OutOfMemory) × (opening_refusal config ≡ None))) }
    {
        match config.open(alloc) {
            Ok(opening) => match Book::at_opening(alloc, opening) {
                Ok(book) => Ok(book),
                Err(_) => Err(OpeningRefusal::OutOfMemory),
            },
            Err(cause) => Err(cause),
        }
    }

    // The book of a session that opens in a state.
    fn at_opening(alloc: Global, opening: State) -> Result<Book, AllocError>
        ensures opening { IfOk result (λ book. book.opening ≡ opening) }
        ensures journal { IfOk result (λ book. book.journal ≡ []) }
    {
        let journal = Vec::with_capacity(alloc, FIRST_ROOM)?;
        let exposure = Exposure::at_opening(alloc, &opening)?;
        let Ok(state) = opening.copy(alloc) else {
            return Err(AllocError);
        };
        Ok(Book {
            opening,
            journal,
            state,
            exposure,
            alloc,
        })
    }

    /// Goes back to the book as it was at an earlier version. It takes no memory.
    pub fn take_back(&mut self, version: usize)
        requires { version ≤ length self.old.journal }
        ensures opening { self.new.opening ≡ self.old.opening }
        ensures journal { self.new.journal ≡ take version self.old.journal }
    {
        self.journal.truncate(version);
        replay(
            &self.opening,
            &self.journal,
            &mut self.state,
            &mut self.exposure,
        );
    }

    /// The edition of the policy that the session is of.
    pub fn edition(&self) -> Edition
        ensures { result ≡ self.now.opening.public.edition }
    {
        self.opening.public().edition
    }

    /// How many entries were accepted. Each book's journal is accepted.
    pub fn version(&self) -> usize
        ensures version { result ≡ length self.now.journal }
        ensures few { result ≤ most_entries }
        ensures accepted { IsAccepted self.now.opening self.now.journal }
    {
        self.journal.len()
    }

    /// The state that the journal leads to. Each book's journal is accepted.
    pub fn state(&self) -> &State
        ensures state { result.now ≡ state_of self.now }
        ensures accepted { IsAccepted self.now.opening self.now.journal }
    {
        &self.state
    }

    /// The entry of a number, from 1.
    pub fn entry(&self, number: usize) -> Option<&Entry>
        ensures { option_copied result ≡ entry_of self.now.journal number }
    {
        if number < 1 {
            return None;
        }
        self.journal.get(number - 1)
    }

    /// The entries from a number on, at most so many, for a user who has the permission for the audit.
    pub fn audit(&self, actor: Name, from: usize, limit: usize) -> Result<AuditRows, AuditError>
        ensures rows { IfOk result (λ rows. rows ≡ audit_rows self.now.journal from limit) }
        ensures ok { OnOk result (HasPermission (state_of self.now).roles actor Audit) }
        ensures err { IfErr result (λ error.
            (error ≡ NotPermitted) ↔ (¬ HasPermission (state_of self.now).roles actor Audit)) }
        ensures valid { IsValid (state_of self.now).roles }
    {
        if !self.state().check_access(actor, Operation::Audit) {
            return Err(AuditError::NotPermitted);
        }
        match rows_of(self.alloc, &self.journal, from, limit) {
            Ok(rows) => Ok(AuditRows::new(rows)),
            Err(_) => Err(AuditError::OutOfMemory),
        }
    }

    /// Whether a command is accepted now: then its entry, for which there is room. This changes nothing but the room.
    pub fn check(&mut self, actor: Actor, command: &Command) -> Result<Entry, Refusal>
        ensures ok { IfOk result (λ entry. entry ≡ record { actor = actor; command = command.now }) }
        ensures accepted { IfOk result (λ entry. refusal_at self.old actor command.now ≡ None) }
        ensures room { IfOk result (λ entry. 1 ≤ self.new.spare) }
        ensures err { IfErr result (λ cause. (refusal_at self.old actor command.now ≡ Some cause)
            ⊎ ((cause ≡ OutOfMemory) × (refusal_at self.old actor command.now ≡ None))) }
        ensures same { self.new ≡ record self.old { spare = self.new.spare } }
    {
        let entry = Entry {
            actor,
            command: *command,
        };
        if let Some(cause) = self.refusal(&entry) {
            return Err(cause);
        }
        if self.journal.reserve(1).is_err() {
            return Err(Refusal::OutOfMemory);
        }
        Ok(entry)
    }

    /// Why what would be the next entry is refused now, if it is.
    fn refusal(&self, entry: &Entry) -> Option<Refusal>
        ensures { result ≡ refusal_at self.now entry.now.actor entry.now.command }
    {
        let spoiler = self.spoiler(&entry.command);
        self.state
            .refusal(spoiler, entry.actor, &entry.command, self.journal.len())
    }

    // Who spoils the result that a command enters or confirms, if somebody does.
    fn spoiler(&self, command: &Command) -> Option<Name>
        ensures { result ≡ spoiler_of self.now.opening self.now.journal command.now }
    {
        let cell = result_cell(command)?;
        if !self.has_cell(cell) {
            return None;
        }
        self.spoiler_at(cell)
    }

    // The first user, in order of the accounts, who was shown something of the cell's board and sits at the cell.
    fn spoiler_at(&self, cell: Cell) -> Option<Name>
        requires from { 1 ≤ cell.board }
        requires to { cell.board ≤ boards_of self.now.opening.public.movement }
        ensures { result ≡ spoiler_at self.now.opening self.now.journal cell }
    {
        let accounts = self.state().accounts();
        for place in 0..accounts.len() {
            let user = accounts[place].name;
            if self.spoils(place, user, cell) {
                return Some(user);
            }
        }
        None
    }

    // Whether the user at a place was shown something of the cell's board, and sits at the cell.
    fn spoils(&self, place: usize, user: Name, cell: Cell) -> bool
        requires place { place < length (users_of (state_of self.now)) }
        requires room { place < most_users }
        requires user { user ≡ user_at (state_of self.now) place }
        requires from { 1 ≤ cell.board }
        requires to { cell.board ≤ boards_of self.now.opening.public.movement }
        ensures { result ≡ spoils self.now.opening self.now.journal cell user }
    {
        let state = self.state();
        self.is_noted(place, cell.board) && sits_at(state, user, cell)
    }

    // Whether the user at a place was shown something of a board.
    fn is_noted(&self, place: usize, board: u8) -> bool
        requires place { place < length (users_of (state_of self.now)) }
        requires room { place < most_users }
        requires from { 1 ≤ board }
        requires to { board ≤ boards_of self.now.opening.public.movement }
        ensures { result ≡ is_exposed self.now.opening self.now.journal (user_at (state_of self.now) place) board }
    {
        self.exposure.contains(place, board)
    }

    // How many boards the session plays.
    fn boards(&self) -> u8
        ensures boards { result ≡ boards_of self.now.opening.public.movement }
        ensures few { result ≤ most_boards }
    {
        self.opening.public().movement.boards()
    }

    // Whether the cell's table is scheduled to play its board.
    fn has_cell(&self, cell: Cell) -> bool
        ensures from { result ≡ true → 1 ≤ cell.board }
        ensures to { result ≡ true → cell.board ≤ boards_of self.now.opening.public.movement }
        ensures none { result ≡ false → ¬ IsCell self.now.opening.public.movement cell }
    {
        self.opening
            .public()
            .movement
            .cell(cell.table, cell.board)
            .is_some()
    }

    /// Whether a user is exposed to a board of the session: whether, at the opening or after some entry, some secret
    /// fact of the board was allowed to the user.
    pub fn exposed(&self, name: Name, board: u8) -> bool
        requires from { 1 ≤ board }
        requires to { board ≤ boards_of (state_of self.now).public.movement }
        ensures test { result ≡ is_exposed self.now.opening self.now.journal name board }
        ensures exposed { IsTrue result ↔ Exposed self.now.opening self.now.journal name board }
    {
        let accounts = self.state().accounts();
        match place_of(accounts, name) {
            Some(place) => self.is_noted(place, board),
            None => false,
        }
    }

    /// Adds an entry that is accepted, and for which there is room.
    pub fn commit(&mut self, entry: Entry)
        requires accepted { MayFollow self.old.opening self.old.journal entry }
        requires room { 1 ≤ self.old.spare }
        ensures journal { self.new.journal ≡ self.old.journal ++ entry ∷ [] }
        ensures opening { self.new.opening ≡ self.old.opening }
    {
        let boards = self.boards();
        absorb(&mut self.state, &mut self.exposure, &entry, boards);
        put_copy(&mut self.journal, &entry);
    }

    /// Tries the commands of a user, one after another: each that is accepted joins the journal. Where memory is
    /// refused at one of them, those before it stand, and those after it are not tried. Where there is no memory for
    /// the answers, nothing is tried.
    pub fn submit(&mut self, actor: Name, batch: &[Command]) -> Result<Submission, AllocError>
        requires { length batch.now ≤ most_commands }
        ensures ran { IfOk result (λ submission. (stopped : Bool)
            × Runs stopped self.old.opening self.old.journal actor batch.now
            (record { journal = self.new.journal; answers = submission.answers.items })) }
        ensures first { IfOk result (λ submission.
            submission.first ≡ first_number (length self.old.journal) (length self.new.journal)) }
        ensures last { IfOk result (λ submission.
            submission.last ≡ last_number (length self.old.journal) (length self.new.journal)) }
        ensures opening { self.new.opening ≡ self.old.opening }
        ensures err { OnErr result (self.new ≡ self.old) }
    {
        let mut answers = Vec::with_capacity(self.alloc, batch.len())?;
        let before = self.version();
        let mut stopped = false;
        for command in batch {
            let refusal = self.attempt(actor, command, stopped);
            stopped = is_stopped(stopped, &refusal);
            put_item(&mut answers, Answer::new(refusal));
        }
        Ok(Submission::new(answers, before, self.version()))
    }

    /// Tries a command of the solver's: one of users is refused.
    pub fn submit_found(&mut self, command: &Command) -> Answer
        ensures tried { IsTried self.old Solver command.now result self.new }
        ensures opening { self.new.opening ≡ self.old.opening }
    {
        match self.check(Actor::Solver, command) {
            Ok(entry) => {
                self.commit(entry);
                Answer::Accepted
            }
            Err(cause) => Answer::Refused(cause),
        }
    }

    // Why one command of a batch is refused, if it is: none is tried once memory was refused.
    fn attempt(&mut self, actor: Name, command: &Command, stopped: bool) -> Option<Refusal>
        ensures runs { (before : List Entry) (tried : List Command) (answers : List Answer) →
            Runs stopped self.old.opening before actor tried
            (record { journal = self.old.journal; answers = answers }) →
            Runs (stopped || stops result) self.old.opening before actor (tried ++ command.now ∷ [])
            (record { journal = self.new.journal; answers = answers ++ answer_of result ∷ [] }) }
        ensures opening { self.new.opening ≡ self.old.opening }
    {
        if stopped {
            return Some(Refusal::NotTried);
        }
        match self.check(Actor::User(actor), command) {
            Ok(entry) => {
                self.commit(entry);
                None
            }
            Err(cause) => Some(cause),
        }
    }
}

// Leads a session's state, and the table of who was shown what, over a journal from the opening again.
fn replay(opening: &State, journal: &[Entry], state: &mut State, exposure: &mut Exposure)
    requires deals { state.old.deals ≡ opening.now.deals }
    requires notices { state.old.notices ≡ opening.now.notices }
    ensures state { state.new ≡ replay opening.now journal.now }
    ensures noted { IsNoted opening.now journal.now state.new exposure.new }
{
    state.copy_from(opening);
    exposure.set_back(opening);
    let boards = opening.public().movement.boards();
    for entry in journal {
        absorb(state, exposure, entry, boards);
    }
}

// Takes an entry into the state that a journal leads to, and notes who is shown more after it, of so many boards.
fn absorb(state: &mut State, exposure: &mut Exposure, entry: &Entry, boards: u8)
    requires { boards ≤ most_boards }
    ensures { (opening : SessionState) (journal : List Entry) → boards ≡ boards_of opening.public.movement →
        state.old ≡ replay opening journal → IsNoted opening journal state.old exposure.old →
        (state.new ≡ replay opening (journal ++ entry.now ∷ []))
        × IsNoted opening (journal ++ entry.now ∷ []) state.new exposure.new }
{
    let touched = entry.command.touched();
    state.absorb(entry);
    exposure.ask_touched(state, &touched, boards);
}

/// Whether no command of a batch is tried any more, after one that was refused or not: none is once memory was refused.
pub fn is_stopped(stopped: bool, refusal: &Option<Refusal>) -> bool
    ensures { result ≡ (stopped || stops refusal.now) }
{
    stopped
        || match refusal {
            Some(cause) => cause.is_out_of_memory(),
            None => false,
        }
}

// Whether a user sits at a cell, whatever roles the user has.
fn sits_at(state: &State, user: Name, cell: Cell) -> bool
    ensures { result ≡ is_seated_at state.now.public (viewer_of state.now user) cell }
{
    let seated = Viewer {
        roles: None,
        seat: state.seat(user),
    };
    is_seated_at(state.public(), &seated, cell)
}

// The cell whose result a command enters or confirms, if it does so.
fn result_cell(command: &Command) -> Option<Cell>
    ensures { result ≡ result_cell command.now }
{
    if command.is_told_by_table() {
        command.cell()
    } else {
        None
    }
}

// Where the account of a user stands, if there is one.
fn place_of(accounts: &[Account], name: Name) -> Option<usize>
    ensures within { IfSome result (λ place. place < length accounts.now) }
    ensures found { IfSome result (λ place. slice_index_or (map (λ account. account.name) accounts.now) place [] ≡ name) }
    ensures none { IfNone result (¬ Contains (map (λ account. account.name) accounts.now) name) }
{
    for place in 0..accounts.len() {
        if accounts[place].name == name {
            return Some(place);
        }
    }
    None
}
