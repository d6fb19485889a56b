ghost use Rattle.std.specs.Prelude.{◌≡◌};
ghost use Rattle.session_queries.specs.Query.{fact_of};

use disclosure_rules::Fact;
use movement::Cell;
use query_filter::Filter;

/// What a user asks for. Boards and tables are numbered from 1.
#[derive(Drop)]
pub enum Query {
    /// What every member may see.
    Status,
    /// A board with its hands.
    Board(u8),
    /// The results on a board, table by table.
    Traveller(u8),
    /// The double-dummy table of a board.
    Analysis(u8),
    /// The par of a board.
    Par(u8),
    /// The cards as they were played at a table.
    Play(Cell),
    /// What each card that was played at a table cost.
    Costs(Cell),
    /// The reason that the director gave for a ruling at a table.
    Reason(Cell),
    /// The boards whose hands the user may see and for which the filter holds: those from a number on, and at most so
    /// many of them.
    List {
        filter: Option<Filter>,
        from: u8,
        limit: u8,
    },
    /// How the pairs rank over the boards whose hands the user may see.
    Ranking,
    /// The users with their roles, and the inheritance of roles.
    Accounts,
}

impl Query {
    /// The fact that decides whether the query is answered.
    pub fn fact(&self) -> Fact
        ensures { result ≡ fact_of self.now }
    {
        match self {
            Query::Status | Query::List { .. } | Query::Ranking => Fact::Public,
            Query::Board(board) | Query::Traveller(board) => Fact::Hands(*board),
            Query::Analysis(board) | Query::Par(board) => Fact::Analysis(*board),
            Query::Play(cell) => Fact::Play(*cell),
            Query::Costs(cell) => Fact::Cost(*cell),
            Query::Reason(cell) => Fact::Reason(*cell),
            Query::Accounts => Fact::Accounts,
        }
    }
}
