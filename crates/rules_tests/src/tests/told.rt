//! What the solver tells, told by users: it needs no permission and no account, and the numbers are looked at as ever.

use cards::Deal;
use double_dummy::{Budget, table};
use movement::Movement;
use notices::Notices;
use pbn_records::read_deals;
use session_commands::{Actor, Command, Refusal};
use session_opening::{Config, NewUser};
use session_roles::{Edition, Role};
use session_state::State;
use solver_results::DdTable;
use std::alloc::Global;
use table_terms::Items;
use user_names::{Digest, Name, ShownName};

/// North has the spades, East the hearts, South the diamonds and West the clubs; and each suit's owner one further on.
const SUITS: &str = "N:AKQJT98765432... .AKQJT98765432.. ..AKQJT98765432. ...AKQJT98765432";

const TURNED: &str = "E:AKQJT98765432... .AKQJT98765432.. ..AKQJT98765432. ...AKQJT98765432";

/// Three boards, each with whole suits.
const BOARDS: &str = r#"[Board "1"]
[Deal "N:AKQJT98765432... .AKQJT98765432.. ..AKQJT98765432. ...AKQJT98765432"]

[Board "2"]
[Deal "N:AKQJT98765432... .AKQJT98765432.. ..AKQJT98765432. ...AKQJT98765432"]

[Board "3"]
[Deal "N:AKQJT98765432... .AKQJT98765432.. ..AKQJT98765432. ...AKQJT98765432"]
"#;

/// A user with this role alone.
fn user(alloc: Global, name: &str, role: Role) -> Option<NewUser> {
    let mut roles = Vec::new(alloc);
    roles.push(role).ok()?;
    Some(NewUser {
        name: Name::new(name).ok()?,
        digest: Digest { bytes: [0; 32] },
        roles: Items::new(roles),
        seat: None,
        shown: ShownName::none(),
        number: None,
    })
}

/// An administrator, and a member.
fn users(alloc: Global) -> Option<Items<NewUser>> {
    let mut users = Vec::new(alloc);
    users.push(user(alloc, "admin", Role::Administrator)?).ok()?;
    users.push(user(alloc, "member", Role::Member)?).ok()?;
    Some(Items::new(users))
}

/// A session of three boards that has opened.
fn opened(alloc: Global) -> Option<State> {
    let Ok(movement) = Movement::new(3, 1, 1) else {
        return None;
    };
    let Ok(boards) = read_deals(alloc, BOARDS.as_bytes(), 3) else {
        return None;
    };
    if boards.boards() < movement.boards() {
        return None;
    }
    let config = Config {
        edition: Edition::First,
        movement,
        boards,
        users: users(alloc)?,
        notices: Notices {
            title: None,
            date: None,
            reasons: Items::new(Vec::new(alloc)),
        },
    };
    config.open(alloc).ok()
}

/// The double-dummy table of a deal.
fn table_of(alloc: Global, text: &str) -> Option<DdTable> {
    let deal = text.parse::<Deal>().ok()?;
    table(alloc, deal, &mut Budget::new(1_000_000)).ok()
}

/// Who tells a table, of which board, whether it is the deal's own, and the refusal, or `ok`.
type Row = (&'static str, u8, bool, &'static str);

/// The member has permission for nothing, and nobody is called `stranger`.
static ROWS: [Row; 4] = [
    ("member", 1, true, "ok"),
    ("stranger", 1, true, "ok"),
    ("member", 1, false, "StrangeDeal"),
    ("member", 4, true, "NoSuchBoard"),
];

/// Whether a command of a user's is refused so.
fn is_answered(alloc: Global, state: &State, name: &str, command: &Command, want: &str) -> bool {
    let Ok(name) = Name::new(name) else {
        return false;
    };
    match state.refusal(None, Actor::User(name), command, 0) {
        Some(cause) => is_called(alloc, &cause, want),
        None => want == "ok",
    }
}

fn is_called(alloc: Global, cause: &Refusal, want: &str) -> bool {
    match format!(in alloc; "{cause:?}") {
        Ok(text) => text.as_str() == want,
        Err(_) => false,
    }
}

/// Whether the tables of whole suits are answered as the rows say.
fn are_answered(alloc: Global, state: &State, own: &DdTable, other: &DdTable) -> bool {
    for &(name, board, is_own, want) in &ROWS {
        let table = if is_own { *own } else { *other };
        if !is_answered(alloc, state, name, &Command::Solved { board, table }, want) {
            return false;
        }
    }
    true
}

/// The same in a session that has opened.
fn is_told(alloc: Global) -> bool {
    let Some(state) = opened(alloc) else {
        return false;
    };
    let Some(own) = table_of(alloc, SUITS) else {
        return false;
    };
    let Some(other) = table_of(alloc, TURNED) else {
        return false;
    };
    are_answered(alloc, &state, &own, &other)
        && is_answered(
            alloc,
            &state,
            "member",
            &Command::Hold { board: 1 },
            "NotPermitted",
        )
}

#[test]
fn users_tell_tables_without_a_permission(rt: HostRuntime) {
    assert!(rt; is_told(rt.alloc()));
}
