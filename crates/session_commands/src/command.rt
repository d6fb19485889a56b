use crate::command_row::CommandRow;
use crate::command_word::CommandWord::{self, Of};
use crate::refusal::Refusal;
use crate::taken::Taken;
use crate::target::Target;
use crate::touched::Touched;
use cards::Play;
use disclosure_rules::Phase;
use movement::Cell;
use scoring::Outcome;
use session_roles::{Operation, Role};
use solver_results::{DdTable, PlayCosts};
use table_terms::{Pair, Place};
use user_names::{Digest, Name, ShownName};

/// What a user wants done, or what the solver found.
#[derive(Clone, Copy)]
pub enum Command {
    /// Enters how a board ended at a table, and the cards as they were played, in place of what was entered before.
    Enter {
        cell: Cell,
        outcome: Outcome,
        play: Play,
    },
    /// Confirms what is entered of a board at a table.
    Confirm {
        cell: Cell,
        outcome: Outcome,
    },
    /// Puts a corrected outcome and play in place of a result (Law 79C).
    Correct {
        cell: Cell,
        outcome: Outcome,
        play: Play,
    },
    /// Gives an adjusted score (Law 12C2): a percentage of a top for each side, and the number of a reason.
    Rule {
        cell: Cell,
        north_south: u8,
        east_west: u8,
        reason: u8,
    },
    /// Takes a result away.
    Void {
        cell: Cell,
    },
    /// Withholds a board from everybody but the directors.
    Hold {
        board: u8,
    },
    /// Withholds a board no longer.
    Release {
        board: u8,
    },
    /// Seats a user in a pair, at one of its two places.
    Seat {
        name: Name,
        pair: Pair,
        place: Place,
    },
    /// Takes a user's seat away.
    Unseat {
        name: Name,
    },
    /// Starts the next round.
    NextRound,
    /// Ends play: from then on results are only corrected (Law 79C).
    Close,
    /// Ends corrections.
    Finalise,
    /// Adds an account with no role, and the digest of what its user signs in with (AddUser of INCITS 359-2012).
    AddUser {
        name: Name,
        digest: Digest,
    },
    /// Assigns a role to a user (AssignUser).
    Assign {
        name: Name,
        role: Role,
    },
    /// Takes an assigned role from a user (DeassignUser).
    Deassign {
        name: Name,
        role: Role,
    },
    /// Lets the senior role inherit the junior one (AddInheritance).
    AddInheritance {
        senior: Role,
        junior: Role,
    },
    /// Deletes an inheritance pair (DeleteInheritance).
    DeleteInheritance {
        senior: Role,
        junior: Role,
    },
    /// Tells a board's double-dummy table: a command of the solver's.
    Solved {
        board: u8,
        table: DdTable,
    },
    /// Tells what each card cost that was played of a board at a table: a command of the solver's.
    Analysed {
        cell: Cell,
        costs: PlayCosts,
    },
    /// Withholds every board from everybody but the directors: a command of the second edition.
    Embargo,
    /// Ends an embargo: a command of the second edition.
    Lift,
    /// Gives a user a name to show in place of the one that there was, or takes it away: a command of the second
    /// edition.
    Rename {
        name: Name,
        shown: ShownName,
    },
}

impl Command {
    ghost use Rattle.std.specs.Prelude.{◌≡◌};
    ghost use Rattle.session_commands.specs.Command.{operation_of, is_solvers, phases_of, subject_user, subject_cell, subject_board};
    ghost use Rattle.session_commands.specs.Command.{is_told_by_table, is_among, touched_by};
    ghost use Rattle.session_commands.specs.Refusal.{spoiled};
    ghost use Rattle.session_commands.specs.Row.{command_row};
    ghost use Rattle.session_commands.specs.Told.{word_of, target_of};

    /// Its row: what is known of it whatever the session's state is.
    pub fn row(&self) -> CommandRow
        ensures { result ≡ command_row self.now }
    {
        let (word, taken, target, touched) = match *self {
            Command::Enter { cell, .. } => (
                Of(Operation::Enter),
                Taken::InPlay,
                Target::Cell(cell),
                Touched::Nothing,
            ),
            Command::Confirm { cell, .. } => (
                Of(Operation::Confirm),
                Taken::InPlay,
                Target::Cell(cell),
                Touched::Board(cell.board),
            ),
            Command::Correct { cell, .. } => (
                Of(Operation::Correct),
                Taken::UntilFinal,
                Target::Cell(cell),
                Touched::Board(cell.board),
            ),
            Command::Rule { cell, .. } => (
                Of(Operation::Rule),
                Taken::UntilFinal,
                Target::Cell(cell),
                Touched::Board(cell.board),
            ),
            Command::Void { cell } => (
                Of(Operation::Void),
                Taken::UntilFinal,
                Target::Cell(cell),
                Touched::Nothing,
            ),
            Command::Hold { board } => (
                Of(Operation::Hold),
                Taken::UntilFinal,
                Target::Board(board),
                Touched::Nothing,
            ),
            Command::Release { board } => (
                Of(Operation::Release),
                Taken::Always,
                Target::Board(board),
                Touched::Board(board),
            ),
            Command::Seat { name, .. } => (
                Of(Operation::Seat),
                Taken::InPlay,
                Target::User(name),
                Touched::User(name),
            ),
            Command::Unseat { name } => (
                Of(Operation::Unseat),
                Taken::Always,
                Target::User(name),
                Touched::Nothing,
            ),
            Command::NextRound => (
                Of(Operation::NextRound),
                Taken::InPlay,
                Target::Session,
                Touched::Nothing,
            ),
            Command::Close => (
                Of(Operation::Close),
                Taken::InPlay,
                Target::Session,
                Touched::Nothing,
            ),
            Command::Finalise => (
                Of(Operation::Finalise),
                Taken::InCorrection,
                Target::Session,
                Touched::Nothing,
            ),
            Command::AddUser { name, .. } => (
                Of(Operation::AddUser),
                Taken::Always,
                Target::NewUser(name),
                Touched::Nothing,
            ),
            Command::Assign { name, role } => (
                Of(Operation::Assign),
                Taken::Always,
                Target::Assignment { name, role },
                Touched::User(name),
            ),
            Command::Deassign { name, role } => (
                Of(Operation::Deassign),
                Taken::Always,
                Target::Assignment { name, role },
                Touched::User(name),
            ),
            Command::AddInheritance { senior, junior } => (
                Of(Operation::AddInheritance),
                Taken::Always,
                Target::Inheritance { senior, junior },
                Touched::Everything,
            ),
            Command::DeleteInheritance { senior, junior } => (
                Of(Operation::DeleteInheritance),
                Taken::Always,
                Target::Inheritance { senior, junior },
                Touched::Everything,
            ),
            Command::Solved { board, .. } => (
                CommandWord::Solved,
                Taken::Always,
                Target::Board(board),
                Touched::Nothing,
            ),
            Command::Analysed { cell, .. } => (
                CommandWord::Analysed,
                Taken::Always,
                Target::Cell(cell),
                Touched::Nothing,
            ),
            Command::Embargo => (
                Of(Operation::Embargo),
                Taken::UntilFinal,
                Target::Session,
                Touched::Nothing,
            ),
            Command::Lift => (
                Of(Operation::Lift),
                Taken::Always,
                Target::Session,
                Touched::Everything,
            ),
            Command::Rename { name, .. } => (
                Of(Operation::Rename),
                Taken::Always,
                Target::User(name),
                Touched::Nothing,
            ),
        };
        CommandRow {
            word,
            taken,
            target,
            touched,
        }
    }

    /// The operation for which a user needs the permission; the solver's commands have none.
    pub fn operation(&self) -> Option<Operation>
        ensures { result ≡ operation_of self.now }
    {
        self.row().word.operation()
    }

    /// Whether it is one of the solver's.
    pub fn is_solvers(&self) -> bool
        ensures { result ≡ is_solvers self.now }
    {
        self.operation().is_none()
    }

    /// The phases in which it is taken.
    pub fn phases(&self) -> &'static [Phase]
        ensures { result.now ≡ phases_of self.now }
    {
        self.row().taken.phases()
    }

    /// Whether it is taken in a phase.
    pub fn is_taken_in(&self, phase: Phase) -> bool
        ensures { result ≡ is_among (phases_of self.now) phase }
    {
        self.phases().contains(&phase)
    }

    /// The user that it is about, who must have an account.
    pub fn user(&self) -> Option<Name>
        ensures { result ≡ subject_user self.now }
    {
        self.row().target.user()
    }

    /// The table and the board that it is about, if it is about a table.
    pub fn cell(&self) -> Option<Cell>
        ensures { result ≡ subject_cell self.now }
    {
        self.row().target.cell()
    }

    /// The board that it is about, if it is about a board as a whole.
    pub fn board(&self) -> Option<u8>
        ensures { result ≡ subject_board self.now }
    {
        self.row().target.board()
    }

    /// Whom it may let see the hands of a board, who didn't see them before.
    pub fn touched(&self) -> Touched
        ensures { result ≡ touched_by self.now }
    {
        self.row().touched
    }

    /// Whether it tells a result that was played.
    pub fn is_told_by_table(&self) -> bool
        ensures { result ≡ is_told_by_table self.now }
    {
        matches!(self, Command::Enter { .. } | Command::Confirm { .. })
    }

    /// Why it is refused for a user who sits at its cell and was shown something of its board, if there is one.
    pub fn spoiled(&self, spoiler: Option<Name>) -> Option<Refusal>
        ensures { result ≡ spoiled self.now spoiler }
    {
        if self.is_told_by_table() {
            spoiler.map(Refusal::Spoiled)
        } else {
            None
        }
    }

    /// How it is called.
    pub fn word(&self) -> CommandWord
        ensures { result ≡ word_of self.now }
    {
        self.row().word
    }

    /// What it is about.
    pub fn target(&self) -> Target
        ensures { result ≡ target_of self.now }
    {
        self.row().target
    }
}
