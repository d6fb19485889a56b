ghost use Rattle.std.specs.Prelude.{◌≡◌};
ghost use Rattle.disclosure_rules.specs.Fact.{board_of_fact, cell_of_fact, is_accounts, is_analysed, is_of_play};
ghost use Rattle.disclosure_rules.specs.Fact.{is_reason};

use movement::Cell;

/// Something that a user may be shown. Boards are numbered from 1.
#[derive(Clone, Copy)]
pub enum Fact {
    /// What every member may see: the movement, the seats, the phase, what is held and where there is a result.
    Public,
    /// The users with their roles, and the inheritance of roles.
    Accounts,
    /// The four hands of a board.
    Hands(u8),
    /// The double-dummy table of a board.
    Analysis(u8),
    /// What was scored at a table on a board, or how it was ruled.
    Result(Cell),
    /// The cards as they were played at a table.
    Play(Cell),
    /// What each card that was played cost.
    Cost(Cell),
    /// The reason that the director gave for a ruling.
    Reason(Cell),
}

impl Fact {
    /// The board whose secret the fact is, if it is secret.
    pub fn board(self) -> Option<u8>
        ensures { result ≡ board_of_fact self }
    {
        match self {
            Fact::Public | Fact::Accounts => None,
            Fact::Hands(board) | Fact::Analysis(board) => Some(board),
            Fact::Result(cell) | Fact::Play(cell) | Fact::Cost(cell) | Fact::Reason(cell) => {
                Some(cell.board)
            }
        }
    }

    /// The table and the board that the fact is of, if it is of one table.
    pub fn cell(self) -> Option<Cell>
        ensures { result ≡ cell_of_fact self }
    {
        match self {
            Fact::Public | Fact::Accounts | Fact::Hands(_) | Fact::Analysis(_) => None,
            Fact::Result(cell) | Fact::Play(cell) | Fact::Cost(cell) | Fact::Reason(cell) => {
                Some(cell)
            }
        }
    }

    pub(crate) fn is_accounts(self) -> bool
        ensures { result ≡ is_accounts self }
    {
        match self {
            Fact::Accounts => true,
            Fact::Public
            | Fact::Hands(_)
            | Fact::Analysis(_)
            | Fact::Result(_)
            | Fact::Play(_)
            | Fact::Cost(_)
            | Fact::Reason(_) => false,
        }
    }

    /// Whether the fact tells of the double-dummy value of the hands.
    pub(crate) fn is_analysed(self) -> bool
        ensures { result ≡ is_analysed self }
    {
        match self {
            Fact::Analysis(_) | Fact::Cost(_) => true,
            Fact::Public
            | Fact::Accounts
            | Fact::Hands(_)
            | Fact::Result(_)
            | Fact::Play(_)
            | Fact::Reason(_) => false,
        }
    }

    /// Whether the fact tells how the cards were played.
    pub(crate) fn is_of_play(self) -> bool
        ensures { result ≡ is_of_play self }
    {
        match self {
            Fact::Play(_) | Fact::Cost(_) => true,
            Fact::Public
            | Fact::Accounts
            | Fact::Hands(_)
            | Fact::Analysis(_)
            | Fact::Result(_)
            | Fact::Reason(_) => false,
        }
    }

    /// Whether the fact is the reason of a ruling.
    pub(crate) fn is_reason(self) -> bool
        ensures { result ≡ is_reason self }
    {
        match self {
            Fact::Reason(_) => true,
            Fact::Public
            | Fact::Accounts
            | Fact::Hands(_)
            | Fact::Analysis(_)
            | Fact::Result(_)
            | Fact::Play(_)
            | Fact::Cost(_) => false,
        }
    }
}
