//! What a session object tells of the session and of its users: the longest that may stand there, and one more.

use super::opened::movement_in;
use std::alloc::{AllocError, Global};

/// What stands before a text of one letter, so often; what stands behind it; and what comes of it. First members of the
/// session, then of a user.
static LENGTHS: [(&str, usize, &str, &str); 9] = [
    (r#""title":""#, 0, r#"""#, "BadField"),
    (r#""title":""#, 1, r#"""#, "read"),
    (r#""title":""#, 100, r#"""#, "read"),
    (r#""title":""#, 101, r#"""#, "BadField"),
    (r#""reasons":[""#, 0, r#""]"#, "BadField"),
    (r#""reasons":[""#, 1, r#""]"#, "read"),
    (r#""reasons":[""#, 200, r#""]"#, "read"),
    (r#""reasons":[""#, 201, r#""]"#, "BadField"),
    (r#""reasons":["a",""#, 201, r#""]"#, "BadField"),
];

static USER_LENGTHS: [(&str, usize, &str, &str); 8] = [
    (r#""shown":""#, 0, r#"""#, "BadField"),
    (r#""shown":""#, 1, r#"""#, "read"),
    (r#""shown":""#, 64, r#"""#, "read"),
    (r#""shown":""#, 65, r#"""#, "BadField"),
    (r#""number":""#, 0, r#"""#, "BadField"),
    (r#""number":""#, 1, r#"""#, "read"),
    (r#""number":""#, 16, r#"""#, "read"),
    (r#""number":""#, 17, r#"""#, "BadField"),
];

/// A member of the session, and what comes of it.
static MEMBERS: [(&str, &str); 30] = [
    (r#""title":"Vereinsabend März""#, "read"),
    (r#""title":" Vereinsabend""#, "BadField"),
    (r#""title":"Vereinsabend ""#, "BadField"),
    (r#""title":"a\nb""#, "BadField"),
    (r#""title":"a\u202eb""#, "BadField"),
    (r#""title":null"#, "BadField"),
    (r#""title":1"#, "BadField"),
    (r#""date":"2026-11-27""#, "read"),
    (r#""date":"0000-01-01""#, "read"),
    (r#""date":"9999-12-31""#, "read"),
    (r#""date":"2026-00-27""#, "BadField"),
    (r#""date":"2026-13-27""#, "BadField"),
    (r#""date":"2026-11-00""#, "BadField"),
    (r#""date":"2026-11-32""#, "BadField"),
    (r#""date":"2026-1-27""#, "BadField"),
    (r#""date":"2026-11-271""#, "BadField"),
    (r#""date":"2026/11/27""#, "BadField"),
    (r#""date":"2026-11/27""#, "BadField"),
    (r#""date":"202a-11-27""#, "BadField"),
    (r#""date":"a026-11-27""#, "BadField"),
    (r#""date":"2026-1a-27""#, "BadField"),
    (r#""date":"2026-11-2:""#, "BadField"),
    (r#""date":"""#, "BadField"),
    (r#""date":20261127"#, "BadField"),
    (r#""reasons":["Revoke","Slow play"]"#, "read"),
    (r#""reasons":[]"#, "BadField"),
    (r#""reasons":"Revoke""#, "BadField"),
    (r#""reasons":["Revoke",1]"#, "BadField"),
    (r#""reasons":["Revoke",""]"#, "BadField"),
    (r#""remark":"a""#, "BadField"),
];

/// A member of a user, and what comes of it.
static USER_MEMBERS: [(&str, &str); 9] = [
    (r#""shown":"Anna Müller""#, "read"),
    (r#""shown":"Anna Müller ""#, "BadField"),
    (r#""shown":"Anna\tMüller""#, "BadField"),
    (r#""shown":null"#, "BadField"),
    (r#""shown":7"#, "BadField"),
    (r#""number":"DBV12345""#, "read"),
    (r#""number":"DBV-12345""#, "BadField"),
    (r#""number":"Mü1""#, "BadField"),
    (r#""number":12345"#, "BadField"),
];

/// What each session here has beside its boards.
const BESIDE: &str = r#""budget":0,"pbn":"","per_set":1,"rounds":1,"tables":3,"#;

/// What each user here has.
const USER: &str =
    r#""digest":"0000000000000000000000000000000000000000000000000000000000000000","name":"anna","roles":[],"#;

// The helpers have no clause, so that a test's proof does not carry what its calls say.

/// A text between two others, so many times.
fn between(
    alloc: Global,
    before: &str,
    piece: &str,
    times: usize,
    after: &str,
) -> Result<String, AllocError> {
    let mut text = String::from_str(alloc, before)?;
    for _ in 0..times {
        text.push_str(piece)?;
    }
    text.push_str(after)?;
    Ok(text)
}

/// What comes of an object with these members: `read`, where all that is wrong is that no board is there, or its fault.
fn outcome(alloc: Global, members: &str, users: &str) -> Result<String, AllocError> {
    let object = format!(in alloc; "{{{BESIDE}{members}\"users\":[{users}]}}")?;
    match movement_in(alloc, object.as_bytes(), None) {
        Ok(_) => String::from_str(alloc, "read without boards"),
        Err(fault) => {
            let name = format!(in alloc; "{fault}")?;
            if name.as_str() == "MissingBoard(1)" {
                return String::from_str(alloc, "read");
            }
            Ok(name)
        }
    }
}

/// What comes of a session with this member.
fn with_member(alloc: Global, member: &str) -> Result<String, AllocError> {
    let members = between(alloc, member, ",", 1, "")?;
    outcome(alloc, members.as_str(), "")
}

/// What comes of a session whose one user has this member.
fn with_user(alloc: Global, member: &str) -> Result<String, AllocError> {
    let user = format!(in alloc; "{{{USER}{member}}}")?;
    outcome(alloc, "", user.as_str())
}

/// Whether this comes of a member.
fn is_outcome(alloc: Global, is_of_user: bool, member: &str, wanted: &str) -> bool {
    let told = if is_of_user {
        with_user(alloc, member)
    } else {
        with_member(alloc, member)
    };
    match told {
        Ok(told) => told.as_str() == wanted,
        Err(_) => false,
    }
}

/// Whether this comes of a member in which a text stands so often.
fn comes_of(
    alloc: Global,
    is_of_user: bool,
    (before, times, after): (&str, usize, &str),
    wanted: &str,
) -> bool {
    match between(alloc, before, "a", times, after) {
        Ok(member) => is_outcome(alloc, is_of_user, member.as_str(), wanted),
        Err(_) => false,
    }
}

#[test]
fn what_a_session_tells_of_itself(rt: HostRuntime) {
    for &(before, times, after, name) in &LENGTHS {
        assert!(rt;
            comes_of(rt.alloc(), false, (before, times, after), name),
            "{before} {times} {after}"
        );
    }
    for &(member, name) in &MEMBERS {
        assert!(rt; is_outcome(rt.alloc(), false, member, name), "{member}");
    }
}

#[test]
fn a_user_may_be_shown_and_numbered(rt: HostRuntime) {
    for &(before, times, after, name) in &USER_LENGTHS {
        assert!(rt;
            comes_of(rt.alloc(), true, (before, times, after), name),
            "{before} {times} {after}"
        );
    }
    for &(member, name) in &USER_MEMBERS {
        assert!(rt; is_outcome(rt.alloc(), true, member, name), "{member}");
    }
}

/// How many reasons beside the first, and what comes of it.
static MORE: [(usize, &str); 2] = [(98, "read"), (99, "BadField")];

/// Whether this comes of so many reasons beside the first.
fn comes_of_more(alloc: Global, more: usize, wanted: &str) -> bool {
    match between(alloc, r#""reasons":["a""#, r#","a""#, more, "]") {
        Ok(member) => is_outcome(alloc, false, member.as_str(), wanted),
        Err(_) => false,
    }
}

#[test]
fn there_are_99_reasons_at_most(rt: HostRuntime) {
    for &(more, name) in &MORE {
        assert!(rt; comes_of_more(rt.alloc(), more, name), "{more}");
    }
}
