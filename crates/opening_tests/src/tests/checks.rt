//! What is told of sessions that open and that don't, as it is printed.

use super::boards::deals;
use super::opened::movement_in;
use session_check::{MemberAt, MemberName, check_session, first_misread};
use session_object::SessionFault;
use std::alloc::{AllocError, Global};

/// A digest.
const DIGEST: &str = "5c8b48b667e98452c602b3a1eef2b59ccaefb1b592725c105a8c482ddee81a01";

/// Users after the administrator, each a name, what `roles` lists and what else is said; and how what is told begins.
static USERS: [(&str, &[(&str, &str, &str)], &str); 9] = [
    (
        "one",
        &[],
        "opens: 3 tables, 3 rounds, boards 1 to 3, 1 users",
    ),
    (
        "a player",
        &[("n1", r#""Contestant""#, r#","pair":"NS1","place":"N""#)],
        "opens: 3 tables, 3 rounds, boards 1 to 3, 2 users",
    ),
    (
        "a blank",
        &[("Anna B.", "", "")],
        r#"BadName: user 2 ("Anna B."): a name is "#,
    ),
    (
        "quotes",
        &[(r#"\"\n"#, "", "")],
        r#"BadName: user 2 ("\"\n"): a name is "#,
    ),
    (
        "a name again",
        &[("b", "", ""), ("a", "", ""), ("b", "", "")],
        r#"UserExists: user 3 ("a") and user 1 ("a"): two users have one name; "#,
    ),
    (
        "a seat again",
        &[
            ("n1", r#""Contestant""#, r#","pair":"NS1","place":"N""#),
            ("s1", r#""Contestant""#, r#","pair":"NS1","place":"S""#),
            ("carla", r#""Contestant""#, r#","pair":"NS1","place":"N""#),
        ],
        r#"SeatTaken: user 4 ("carla") and user 2 ("n1"): two users have one seat"#,
    ),
    (
        "a playing director",
        &[("d", r#""Director","Contestant""#, "")],
        r#"Separation(S1): user 2 ("d"): who plays may not direct"#,
    ),
    (
        "the first of two",
        &[
            ("x", r#""Member","Member""#, ""),
            ("n4", r#""Contestant""#, r#","pair":"NS4","place":"N""#),
        ],
        r#"AlreadyAssigned: user 2 ("x"): a role stands twice"#,
    ),
    (
        "a member that is missing",
        &[("n1", r#""Contestant""#, r#","pair":"NS1""#)],
        "BadField: a member is missing",
    ),
];

/// Texts of the boards, and how what is told begins.
static DEALS: [(&str, &str); 4] = [
    ("", "MissingBoard(1): no game has a deal of this board"),
    (
        "[",
        "BadTag(0): line 1 of the PBN text: a `[` outside a comment",
    ),
    (
        "% a\n\n\n[Board \"1\"]\n[Deal \"N:\"]\n",
        "BadDeal(18): line 5 of the PBN text: ",
    ),
    (
        "\r\n\r\n [Board \"1\"][Dealer \"X\"][Deal \"N:\"]\n",
        "BadMark(16): line 3 of the PBN text: ",
    ),
];

/// Users after the administrator, and the member that isn't as it should be.
static MISREAD: [(&[(&str, &str, &str)], Option<usize>, MemberName); 7] = [
    (
        &[("n1", r#""Contestant""#, r#","pair":"NS1""#)],
        Some(2),
        MemberName::Place,
    ),
    (
        &[("b", "", ""), ("c", r#""Commentator""#, "")],
        Some(3),
        MemberName::Roles,
    ),
    (&[("b", "", r#","seat":1"#)], Some(2), MemberName::Listed),
    (
        &[("b", "", ""), ("c", "", r#","digest":"5c""#)],
        Some(3),
        MemberName::Digest,
    ),
    (&[("b", "", r#","number":17"#)], Some(2), MemberName::Number),
    (&[("b", "", r#","shown":"b ""#)], Some(2), MemberName::Shown),
    (&[], None, MemberName::Movement),
];

// The helpers have no clause, so that a test's proof does not carry what its calls say.

/// A user: a name, what `roles` lists and what else is said.
fn user_of(alloc: Global, name: &str, roles: &str, rest: &str) -> Result<String, AllocError> {
    format!(in alloc; "{{\"digest\":\"{DIGEST}\",\"name\":\"{name}\",\"roles\":[{roles}]{rest}}}")
}

/// The object of a session with these users after the administrator.
fn object_of(alloc: Global, users: &[(&str, &str, &str)]) -> Result<String, AllocError> {
    let mut text = String::from_str(
        alloc,
        r#"{"budget":0,"per_set":1,"rounds":3,"tables":3,"users":["#,
    )?;
    let administrator = user_of(alloc, "a", r#""Administrator""#, "")?;
    text.push_str(administrator.as_str())?;
    for (name, roles, rest) in users {
        let user = user_of(alloc, name, roles, rest)?;
        text.push_str(",")?;
        text.push_str(user.as_str())?;
    }
    text.push_str("]}")?;
    Ok(text)
}

/// What is told of a session.
fn told(alloc: Global, object: &str, deals: &str) -> Result<String, AllocError> {
    match check_session(alloc, object.as_bytes(), Some(deals.as_bytes())) {
        Ok(summary) => format!(in alloc; "{summary}"),
        Err(refused) => format!(in alloc; "{refused}"),
    }
}

/// The member that isn't as it should be, of an object whose boards are given beside it; none where the text is no object.
fn misread_in(alloc: Global, object: &str) -> Option<MemberAt> {
    match movement_in(alloc, object.as_bytes(), Some(b"")) {
        Err(SessionFault::BadField) => first_misread(alloc, object.as_bytes(), true).ok(),
        Err(SessionFault::Deals(_)) => first_misread(alloc, object.as_bytes(), true).ok(),
        _ => None,
    }
}

/// Whether what is told of a session with these users begins so.
fn begins(alloc: Global, users: &[(&str, &str, &str)], deals: &str, start: &str) -> bool {
    match object_of(alloc, users) {
        Ok(object) => match told(alloc, object.as_str(), deals) {
            Ok(line) => line.as_str().starts_with(start),
            Err(_) => false,
        },
        Err(_) => false,
    }
}

/// The same over three boards.
fn begins_over_boards(alloc: Global, users: &[(&str, &str, &str)], start: &str) -> bool {
    match deals(alloc, 3) {
        Ok(deals) => begins(alloc, users, deals.as_str(), start),
        Err(_) => false,
    }
}

/// Whether a session's object with these users has this member that isn't as it should be.
fn is_misread(alloc: Global, users: &[(&str, &str, &str)], wanted: MemberAt) -> bool {
    match object_of(alloc, users) {
        Ok(object) => misread_in(alloc, object.as_str()) == Some(wanted),
        Err(_) => false,
    }
}

#[test]
fn the_user_is_told(rt: HostRuntime) {
    for &(row, users, start) in &USERS {
        assert!(rt; begins_over_boards(rt.alloc(), users, start), "{row}");
    }
}

#[test]
fn the_line_is_told(rt: HostRuntime) {
    for &(deals, start) in &DEALS {
        assert!(rt; begins(rt.alloc(), &[], deals, start), "{deals}");
    }
}

#[test]
fn the_member_is_told(rt: HostRuntime) {
    for &(users, user, name) in &MISREAD {
        assert!(rt;
            is_misread(rt.alloc(), users, MemberAt { user, name }),
            "{user:?} {name:?}"
        );
    }
}
