ghost use Rattle.std.specs.Prelude.{◌≡◌};
ghost use Rattle.session_commands.specs.Row.{user_about, cell_about, board_about};

use movement::Cell;
use session_roles::Role;
use user_names::Name;

/// What a command is about.
#[derive(Clone, Copy)]
pub enum Target {
    /// The session as a whole.
    Session,
    /// A board at a table.
    Cell(Cell),
    /// A board as a whole.
    Board(u8),
    /// A user who has no account yet.
    NewUser(Name),
    /// A user.
    User(Name),
    /// A role of a user's.
    Assignment { name: Name, role: Role },
    /// That the senior role inherits the junior one.
    Inheritance { senior: Role, junior: Role },
}

impl Target {
    /// The user, who must have an account.
    pub fn user(&self) -> Option<Name>
        ensures { result ≡ user_about self.now }
    {
        match *self {
            Target::User(name) | Target::Assignment { name, .. } => Some(name),
            _ => None,
        }
    }

    /// The board at a table.
    pub fn cell(&self) -> Option<Cell>
        ensures { result ≡ cell_about self.now }
    {
        match *self {
            Target::Cell(cell) => Some(cell),
            _ => None,
        }
    }

    /// The board as a whole.
    pub fn board(&self) -> Option<u8>
        ensures { result ≡ board_about self.now }
    {
        match *self {
            Target::Board(board) => Some(board),
            _ => None,
        }
    }
}
