use crate::card_costs::CardCosts;
use crate::public_facts::PublicFacts;
use crate::told_notices::ToldNotices;
use cards::{Deal, Play};
use denials::Denial;
use disclosure_rules::Marks;
use movement::Cell;
use par::Par;
use query_filter::TrickTable;
use rbac::{Account, Inheritance};
use scoring::Standing;
use session_state::{Seated, ShownUser};
use standings::TravellerRow;
use table_terms::Items;

/// What a query is answered.
#[derive(Drop)]
pub enum Body {
    /// The session has no such board.
    NoSuchBoard,
    /// The session has no such table, or the table doesn't play that board.
    NoSuchCell,
    /// The version that was asked for isn't there yet.
    Behind,
    /// A rule forbids what was asked for.
    Denied(Denial),
    /// What every member may see, with the seats and the names to show in the order of the accounts, and what the session
    /// tells of itself.
    Status {
        public: PublicFacts,
        seats: Items<Seated>,
        names: Items<ShownUser>,
        notices: ToldNotices,
    },
    /// The hands and the marks of a board.
    Board {
        number: u8,
        deal: Deal,
        marks: Marks,
    },
    /// The results on a board, table by table.
    Traveller {
        number: u8,
        rows: Items<TravellerRow>,
    },
    /// The double-dummy table of a board, or nothing while it is still to come.
    Analysis {
        number: u8,
        tricks: Option<TrickTable>,
    },
    /// The par of a board, or nothing while its double-dummy table is still to come.
    Par {
        number: u8,
        par: Option<Par>,
    },
    /// The cards as they were played at a table, or nothing where it has no result.
    Play {
        cell: Cell,
        cards: Option<Play>,
    },
    /// What each card cost at a table, or nothing where it has no result.
    Costs {
        cell: Cell,
        costs: Option<CardCosts>,
    },
    /// The reason of the ruling at a table, 0 where the result was played, or nothing where it has no result.
    Reason {
        cell: Cell,
        code: Option<u8>,
    },
    /// The boards that are listed, and whether more would follow.
    List {
        boards: Items<u8>,
        more: bool,
    },
    /// The pairs in the order in which they rank.
    Ranking {
        standings: Items<Standing>,
    },
    /// The users with the roles that are assigned to them, and the pairs of the role hierarchy, each in the order in
    /// which they were added.
    Accounts {
        users: Items<Account>,
        pairs: Items<Inheritance>,
    },
}
