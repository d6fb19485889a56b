//! Users are given names to show, in place of one another, and lose them again: whose they are, and who may.

use movement::Movement;
use notices::Notices;
use pbn_records::read_deals;
use session_commands::{Actor, Command, Entry, Refusal};
use session_opening::{Config, NewUser};
use session_roles::{Edition, Role};
use session_state::State;
use std::alloc::Global;
use table_terms::Items;
use user_names::{Digest, Name, ShownName};

/// Two boards, each with whole suits.
const BOARDS: &str = r#"[Board "1"]
[Deal "N:AKQJT98765432... .AKQJT98765432.. ..AKQJT98765432. ...AKQJT98765432"]

[Board "2"]
[Deal "N:AKQJT98765432... .AKQJT98765432.. ..AKQJT98765432. ...AKQJT98765432"]

[Board "3"]
[Deal "N:AKQJT98765432... .AKQJT98765432.. ..AKQJT98765432. ...AKQJT98765432"]
"#;

/// A user with this role alone, and no name to show.
fn user(alloc: Global, name: &str, role: Role) -> Option<NewUser> {
    let mut roles = Vec::new(alloc);
    roles.push(role).ok()?;
    Some(NewUser {
        name: Name::new(name).ok()?,
        digest: Digest { bytes: [0; 32] },
        roles: Items::new(roles),
        seat: None,
        shown: ShownName::none(),
        number: None,
    })
}

/// An administrator, a director and a member.
fn users(alloc: Global) -> Option<Items<NewUser>> {
    let mut users = Vec::new(alloc);
    users.push(user(alloc, "a", Role::Administrator)?).ok()?;
    users.push(user(alloc, "d", Role::Director)?).ok()?;
    users.push(user(alloc, "m", Role::Member)?).ok()?;
    Some(Items::new(users))
}

/// A session that has opened.
fn opened(alloc: Global, edition: Edition) -> Option<State> {
    let Ok(movement) = Movement::new(3, 1, 1) else {
        return None;
    };
    let Ok(boards) = read_deals(alloc, BOARDS.as_bytes(), 3) else {
        return None;
    };
    if boards.boards() < movement.boards() {
        return None;
    }
    let config = Config {
        edition,
        movement,
        boards,
        users: users(alloc)?,
        notices: Notices {
            title: None,
            date: None,
            reasons: Items::new(Vec::new(alloc)),
        },
    };
    config.open(alloc).ok()
}

/// Who gives the command, whom it is about, the name to show, the refusal or `ok`, and the names to show after it.
type Row = (
    &'static str,
    &'static str,
    &'static str,
    &'static str,
    &'static str,
);

static ROWS: [Row; 8] = [
    ("m", "m", "Anna", "NotPermitted", ""),
    ("d", "m", "Anna", "NotPermitted", ""),
    ("a", "stranger", "Anna", "NoSuchUser", ""),
    ("a", "m", "Anna Müller", "ok", "m=Anna Müller;"),
    ("a", "a", "王小明", "ok", "a=王小明;m=Anna Müller;"),
    ("a", "m", "Anna", "ok", "a=王小明;m=Anna;"),
    ("a", "a", "", "ok", "m=Anna;"),
    ("a", "m", "", "ok", ""),
];

fn is_called(alloc: Global, cause: &Refusal, want: &str) -> bool {
    match format!(in alloc; "{cause:?}") {
        Ok(text) => text.as_str() == want,
        Err(_) => false,
    }
}

/// Whether the names to show are written so.
fn shows(alloc: Global, state: &State, want: &str) -> bool {
    let Ok(users) = state.shown_users(alloc) else {
        return false;
    };
    let mut text = String::new(alloc);
    for user in users.as_slice() {
        let Ok(one) = format!(in alloc; "{}={};", user.name, user.shown) else {
            return false;
        };
        let Ok(()) = text.push_str(one.as_str()) else {
            return false;
        };
    }
    text.as_str() == want
}

/// Whether a command is answered so; one that is taken has its effect.
fn is_answered(
    alloc: Global,
    state: &mut State,
    giver: Name,
    command: Command,
    want: &str,
) -> bool {
    let entry = Entry {
        actor: Actor::User(giver),
        command,
    };
    match state.refusal(None, entry.actor, &entry.command, 0) {
        Some(cause) => is_called(alloc, &cause, want),
        None => {
            state.absorb(&entry);
            want == "ok"
        }
    }
}

fn is_row(alloc: Global, state: &mut State, row: &Row) -> bool {
    let (Ok(giver), Ok(name), Ok(shown)) = (
        Name::new(row.0),
        Name::new(row.1),
        ShownName::or_none(row.2),
    ) else {
        return false;
    };
    is_answered(alloc, state, giver, Command::Rename { name, shown }, row.3)
        && shows(alloc, state, row.4)
}

fn are_renamed(alloc: Global) -> bool {
    let Some(mut state) = opened(alloc, Edition::Second) else {
        return false;
    };
    for row in &ROWS {
        if !is_row(alloc, &mut state, row) {
            return false;
        }
    }
    true
}

#[test]
fn users_are_renamed(rt: HostRuntime) {
    assert!(rt; are_renamed(rt.alloc()));
}

#[test]
fn nobody_is_renamed_in_the_first_edition(rt: HostRuntime) {
    let mut state = opened(rt.alloc(), Edition::First).expect(&rt, "a session that opens");
    assert!(rt;
        is_row(
            rt.alloc(),
            &mut state,
            &("a", "m", "Anna", "NotPermitted", "")
        )
    );
}
