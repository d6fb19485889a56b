//! A journal's tables in a database in memory.

use journal_store::{RowText, append, read_kept, take_up};
use sqlite::{Connection, MemStore};
use std::alloc::{AllocError, Global};

const OBJECT: &str = "{\"edition\":1}";

// No UTF-8, and a zero at its end.
const BOARDS: &[u8] = b"[Deal \"\xff\"]\x00";

const HOLD: &str = "{\"board\":7,\"cmd\":\"Hold\"}";

// The helpers have no clause, so that a test's proof does not carry the states of its calls; and none but one has a connection of its own,
// which it lets go by a call: any other way out would take it apart field by field.

/// What is done to a database.
#[derive(Clone, Copy)]
enum Step<'t> {
    /// The journal of a session is taken up, or made.
    Take(&'t str, &'t [u8]),
    /// The journal that is there is read.
    Read,
    /// Behind so many rows others are added, of a publication, so many.
    Append(u32, u32, usize),
    /// Something is changed.
    Change(&'t str),
}

/// The rows as lines.
fn lines(alloc: Global, rows: &[RowText]) -> Result<String, AllocError> {
    let mut text = String::new(alloc);
    for row in rows {
        let line = format!(in alloc; "{} {} {}\n", row.publication, row.actor, row.command)?;
        text.push_str(&line)?;
    }
    Ok(text)
}

/// The rows of the journal of a session, or why it isn't taken up.
fn taken(
    alloc: Global,
    conn: &mut Connection<MemStore>,
    object: &str,
    boards: &[u8],
) -> Result<String, AllocError> {
    if !conn.is_autocommit() {
        return String::from_str(alloc, "in a transaction");
    }
    match take_up(alloc, conn, object, boards) {
        Ok(rows) => lines(alloc, rows.as_slice()),
        Err(fault) => format!(in alloc; "{fault:?}"),
    }
}

/// The session and the rows of the journal that is there, or why none is read.
fn kept(alloc: Global, conn: &mut Connection<MemStore>) -> Result<String, AllocError> {
    if !conn.is_autocommit() {
        return String::from_str(alloc, "in a transaction");
    }
    match read_kept(alloc, conn) {
        Ok((session, rows)) => {
            let text = lines(alloc, rows.as_slice())?;
            let is_same = session.boards.as_slice() == BOARDS;
            format!(in alloc; "{} {is_same}\n{text}", session.object)
        }
        Err(fault) => format!(in alloc; "{fault:?}"),
    }
}

/// Whether so many rows of a publication are added behind others.
fn is_kept(
    alloc: Global,
    conn: &mut Connection<MemStore>,
    first: u32,
    publication: u32,
    count: usize,
) -> Result<bool, AllocError> {
    let mut rows = Vec::new(alloc);
    for _ in 0..count {
        rows.push(RowText {
            publication,
            actor: String::from_str(alloc, "user Ann")?,
            command: String::from_str(alloc, HOLD)?,
        })?;
    }
    if !conn.is_autocommit() || first > 100 || rows.len() > 100 {
        return Ok(false);
    }
    Ok(append(conn, first, rows.as_slice()).is_ok())
}

/// A word for whether something was done.
fn word(alloc: Global, is_done: bool) -> Result<String, AllocError> {
    String::from_str(alloc, if is_done { "done" } else { "not done" })
}

/// What comes of a step.
fn answer(
    alloc: Global,
    conn: &mut Connection<MemStore>,
    step: &Step<'_>,
) -> Result<String, AllocError> {
    match step {
        Step::Take(object, boards) => taken(alloc, conn, object, boards),
        Step::Read => kept(alloc, conn),
        Step::Append(first, publication, count) => {
            let is_done = is_kept(alloc, conn, *first, *publication, *count)?;
            word(alloc, is_done)
        }
        Step::Change(sql) => word(alloc, conn.execute_batch(sql).is_ok()),
    }
}

fn is_answered(
    alloc: Global,
    conn: &mut Connection<MemStore>,
    step: &Step<'_>,
    wanted: &str,
) -> bool {
    matches!(answer(alloc, conn, step), Ok(told) if told.as_str() == wanted)
}

/// The first of the steps over a new database of which comes something else than what is wanted.
fn first_wrong(alloc: Global, steps: &[(Step<'_>, &str)]) -> Option<usize> {
    let Ok(mut conn) = Connection::open_in_memory(alloc) else {
        return Some(steps.len());
    };
    let mut wrong = None;
    for (number, (step, wanted)) in steps.iter().enumerate() {
        if wrong.is_none() && !is_answered(alloc, &mut conn, step, wanted) {
            wrong = Some(number);
        }
    }
    drop(conn);
    wrong
}

const TAKE: Step<'static> = Step::Take(OBJECT, BOARDS);

const NEW: (Step<'static>, &str) = (TAKE, "");

// Two entries of a first publication, and one of a second.
const FIRST: (Step<'static>, &str) = (Step::Append(1, 1, 2), "done");

const SECOND: (Step<'static>, &str) = (Step::Append(3, 2, 1), "done");

const ROWS: &str = "1 user Ann {\"board\":7,\"cmd\":\"Hold\"}
1 user Ann {\"board\":7,\"cmd\":\"Hold\"}
2 user Ann {\"board\":7,\"cmd\":\"Hold\"}
";

static NO_ENTRY: [(Step<'static>, &str); 4] = [
    (Step::Read, "NotAJournal"),
    NEW,
    NEW,
    (Step::Read, "{\"edition\":1} true\n"),
];

#[test]
fn a_new_journal_has_no_entry(rt: HostRuntime) {
    assert_eq!(rt; first_wrong(rt.alloc(), &NO_ENTRY), None);
}

static APPENDED: [(Step<'static>, &str); 7] = [
    NEW,
    FIRST,
    SECOND,
    (TAKE, ROWS),
    // A number that is taken: none of the publication is there, and the next is.
    (Step::Append(2, 3, 2), "not done"),
    (TAKE, ROWS),
    (Step::Append(4, 3, 1), "done"),
];

#[test]
fn what_was_appended_is_read_back(rt: HostRuntime) {
    assert_eq!(rt; first_wrong(rt.alloc(), &APPENDED), None);
}

/// What is done to a journal of three entries, and why it isn't taken up then, nor read.
const CHANGES: [(&str, &str, &str); 12] = [
    (
        "CREATE INDEX more ON entry (actor)",
        "NotAJournal",
        "NotAJournal",
    ),
    (
        "CREATE TABLE more (id INTEGER PRIMARY KEY) STRICT",
        "NotAJournal",
        "NotAJournal",
    ),
    ("DROP TABLE entry", "NotAJournal", "NotAJournal"),
    ("DELETE FROM session", "OtherSession", "NotAJournal"),
    (
        "INSERT INTO session VALUES (2, 'a', x'')",
        "OtherSession",
        "NotAJournal",
    ),
    (
        "UPDATE session SET object = CAST(x'ff' AS TEXT)",
        "OtherSession",
        "NotAJournal",
    ),
    (
        "DELETE FROM entry WHERE number = 2",
        "Misnumbered",
        "Misnumbered",
    ),
    (
        "UPDATE entry SET number = 0 - 1 WHERE number = 1",
        "Misnumbered",
        "Misnumbered",
    ),
    (
        "UPDATE entry SET publication = 0 WHERE number = 1",
        "Misnumbered",
        "Misnumbered",
    ),
    (
        "UPDATE entry SET publication = 3 WHERE number = 3",
        "Misnumbered",
        "Misnumbered",
    ),
    (
        "UPDATE entry SET publication = 2 WHERE number = 1",
        "Misnumbered",
        "Misnumbered",
    ),
    (
        "UPDATE entry SET command = CAST(x'ff' AS TEXT)",
        "Misnumbered",
        "Misnumbered",
    ),
];

#[test]
fn what_is_no_journal_of_the_session_is_refused_by_name(rt: HostRuntime) {
    for (sql, why_not_taken, why_not_read) in CHANGES {
        let steps = [
            NEW,
            FIRST,
            SECOND,
            (Step::Change(sql), "done"),
            (TAKE, why_not_taken),
            (Step::Read, why_not_read),
        ];
        assert_eq!(rt; first_wrong(rt.alloc(), &steps), None, "{sql}");
    }
}

static OTHERS: [(Step<'static>, &str); 6] = [
    NEW,
    FIRST,
    SECOND,
    (Step::Take("{\"edition\":2}", BOARDS), "OtherSession"),
    (Step::Take(OBJECT, b"[Deal \"\xff\"]"), "OtherSession"),
    (TAKE, ROWS),
];

#[test]
fn another_session_is_refused(rt: HostRuntime) {
    assert_eq!(rt; first_wrong(rt.alloc(), &OTHERS), None);
}
