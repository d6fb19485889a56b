//! A session that a journal keeps: served, served again without its files, told and copied.

use super::client::Turn::{Says, ShakesHands};
use super::client::{Client, is_served};
use super::running::{Ending, ends};
use super::serving::{KEPT, port_and_line};
use event_log::LogFiles;
use journal_store::JournalFiles;
use std::net::Net;
use std::random::RandomSource;
use std::rt::Files;
use std::sync::Wait;
use std::test::Fail;
use std::thread::Threads;
use std::time::Clock;
use std::{fs, io, thread};

// A server with a journal that isn't there yet, and one with the journal alone. Each serves one client.
const WITH_FILES: &str =
    "serve --session out/session --deals out/deals --journal out/kept --displays 1 --workers 0 --connections 1";

const ALONE: &str = "serve --journal out/kept --displays 1 --workers 0 --connections 1";

static DIRECTOR: Client = (
    "a director who holds a board",
    &[
        ShakesHands,
        Says(r#"{"hello":"d","token":"abc"}"#, r#"{"hello":"d"}"#),
        Says(
            r#"{"do":[{"board":1,"cmd":"Hold"}]}"#,
            r#"{"answers":["ok"],"first":1,"last":1,"version":1}"#,
        ),
    ],
);

static PLAYER: Client = (
    "a player who asks for it after another start",
    &[
        ShakesHands,
        Says(r#"{"hello":"n1","token":"abc"}"#, r#"{"hello":"n1"}"#),
        Says(
            r#"{"ask":"board","board":1}"#,
            r#"{"denied":{"board":1,"rule":4,"table":0,"why":"the board is held"},"version":1}"#,
        ),
    ],
);

// What is told of the journal, and of its copy.
const AUDIT: Ending = (0, "[1,\"d\",\"Hold\",\"1\"]\n", "");

static ENDINGS: &[(&str, Ending)] = &[
    ("audit --journal out/kept", AUDIT),
    ("copy --journal out/kept --to out/copy", (0, "", "")),
    ("audit --journal out/copy", AUDIT),
    (
        "copy --journal out/kept --to out/copy",
        (1, "", "bridge_server: CopyExists\n"),
    ),
    (
        "copy --journal out/kept --to out/nowhere/copy",
        (3, "", "bridge_server: CopyUnwritten\n"),
    ),
];

// Removes what an earlier test left.
fn remove_files<R: Files>(rt: &R) {
    for path in ["out/kept", "out/kept-wal", "out/copy", "out/copy-wal"] {
        let _gone = fs::remove_file(rt, path);
    }
}

// Whether a server that is called with the words of a line ends, and tells how it served.
fn ends_as_served<
    R: Files
        + Net
        + Clock
        + Wait
        + Threads
        + JournalFiles
        + LogFiles
        + RandomSource
        + AllocGlobal
        + Sync,
>(rt: &R, line: &str) -> bool
where
    R::Listener: Sync,
    R::Stream: Send,
{
    ends(rt, line, &mut io::empty(), &(0, "", KEPT))
}

/// Where a client isn't served so, the test stops: the server would wait for another.
#[test]
fn keeps_a_session_in_a_journal(rt: HostRuntime) -> Result<(), Fail> {
    remove_files(&rt);
    let (port, line) = port_and_line(&rt, WITH_FILES)?;
    let server_rt = rt.clone()?;
    let server = thread::spawn(&rt, move || ends_as_served(&server_rt, line.as_str()))?;
    assert!(rt; is_served(&rt, port, &DIRECTOR));
    assert!(rt; server.join(&rt));
    let (port, line) = port_and_line(&rt, ALONE)?;
    let server_rt = rt.clone()?;
    let server = thread::spawn(&rt, move || ends_as_served(&server_rt, line.as_str()))?;
    assert!(rt; is_served(&rt, port, &PLAYER));
    assert!(rt; server.join(&rt));
    for (words, ending) in ENDINGS {
        assert!(rt; ends(&rt, words, &mut io::empty(), ending), "{words}");
    }
    Ok(())
}
