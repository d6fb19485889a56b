//! Clients that are served.

use super::client::Turn::{Says, Sends, ShakesHands};
use super::client::{Client, Turn, is_served};
use super::running::{Ending, ends};
use super::session::{deals, session, session_alone};
use event_log::LogFiles;
use journal_store::JournalFiles;
use kept_sessions::MOST_FILE_BYTES;
use std::alloc::{AllocError, Global};
use std::net::{Ipv4Addr, Net, OpenListener, TcpListener};
use std::random::RandomSource;
use std::rt::Files;
use std::sync::Wait;
use std::test::Fail;
use std::thread::Threads;
use std::time::Clock;
use std::{fs, io, thread};

// A close without a reason, and its answer.
const CLOSES: Turn = Sends(b"\x88\x80\0\0\0\0", b"\x88\0");

// The first byte of a frame that is sent or heard as bytes says that it is a whole text (`\x81`), a whole binary
// message (`\x82`), a close (`\x88`), a ping (`\x89`) or a pong (`\x8a`). Its length follows, and then in what is sent
// a mask.
static CLIENTS: &[Client] = &[
    (
        "a player who signs in with a masked text, and asks for a board",
        &[
            ShakesHands,
            Sends(
                b"\x81\x9c\x05\x05\x05\x05~'m`iij'?'k4')'qjn`k'?'dgf'x",
                b"\x81\x0e{\"hello\":\"n1\"}",
            ),
            Says(
                r#"{"ask":"board","board":1}"#,
                r#"{"denied":{"board":1,"rule":5,"table":1,"why":"your pair has still to play this board"},"version":0}"#,
            ),
            CLOSES,
        ],
    ),
    ("one that leaves at once", &[]),
    (
        "one whose request is no handshake",
        &[Sends(
            b"GET / HTTP/1.1\r\nHost: 127.0.0.1\r\nConnection: close\r\n\r\n",
            b"HTTP/1.1 404 Not Found\r\ncontent-length: 0\r\nconnection: close\r\n\r\n",
        )],
    ),
    (
        "one whose request is none, and who goes on",
        &[Sends(
            b"hello\r\n\r\n\x81\x84\0\0\0\0late",
            b"HTTP/1.1 400 Bad Request\r\nconnection: close\r\ncontent-length: 0\r\n\r\n",
        )],
    ),
    ("one that says nothing after the handshake", &[ShakesHands]),
    (
        "one that signs in, and leaves in the middle of a frame",
        &[
            ShakesHands,
            Says(r#"{"hello":"n1","token":"abc"}"#, r#"{"hello":"n1"}"#),
            Sends(b"\x81\x8a\0\0\0\0{\"ask", b""),
        ],
    ),
    (
        "one where nobody is signed in, also not by a binary message, which is malformed",
        &[
            ShakesHands,
            Says(r#"{"ask":"board","board":1}"#, r#"{"error":"NotSignedIn"}"#),
            Sends(
                b"\x82\x9c\0\0\0\0{\"hello\":\"n1\",\"token\":\"abc\"}",
                b"\x81\x15{\"error\":\"Malformed\"}",
            ),
            Says(r#"{"ask":"board","board":1}"#, r#"{"error":"NotSignedIn"}"#),
            CLOSES,
        ],
    ),
    (
        "a director who holds a board, and then a player",
        &[
            ShakesHands,
            Says(r#"{"hello":"d","token":"abc"}"#, r#"{"hello":"d"}"#),
            Says(
                r#"{"do":[{"board":1,"cmd":"Hold"}]}"#,
                r#"{"answers":["ok"],"first":1,"last":1,"version":1}"#,
            ),
            Says(r#"{"hello":"n1","token":"abc"}"#, r#"{"hello":"n1"}"#),
            Says(
                r#"{"ask":"board","board":1}"#,
                r#"{"denied":{"board":1,"rule":4,"table":0,"why":"the board is held"},"version":1}"#,
            ),
            CLOSES,
        ],
    ),
    (
        "one whose ping, empty text and close are answered, and nothing after them",
        &[
            ShakesHands,
            Sends(
                b"\x89\x81\0\0\0\0p\x81\x80\0\0\0\0\x88\x82\0\0\0\0\x03\xe8\x81\x84\0\0\0\0late",
                b"\x8a\x01p\x81\x15{\"error\":\"Malformed\"}\x88\x02\x03\xe8",
            ),
        ],
    ),
    // Each of these is told by which rule its connection ends, and a text after it has no answer.
    (
        "one whose frame is unmasked",
        &[
            ShakesHands,
            Sends(b"\x81\x01a\x81\x81\0\0\0\0b", b"\x88\x02\x03\xea"),
        ],
    ),
    (
        "one whose opcode is reserved",
        &[
            ShakesHands,
            Sends(b"\x83\x80\0\0\0\0\x81\x81\0\0\0\0b", b"\x88\x02\x03\xea"),
        ],
    ),
    (
        "one whose text is no UTF-8",
        &[
            ShakesHands,
            Sends(
                b"\x81\x81\0\0\0\0\xff\x81\x81\0\0\0\0b",
                b"\x88\x02\x03\xef",
            ),
        ],
    ),
    (
        "one whose longest message is answered, and ends with one that is longer",
        &[
            ShakesHands,
            Sends(b"\x81\xff\0\0\0\0\0\x01\0\x01\0\0\0\0", b""),
            Sends(&[b'a'; 65_537], b"\x81\x13{\"error\":\"TooLong\"}"),
            Sends(b"\x81\xff\0\0\0\0\0\x01\0\x02\0\0\0\0", b"\x88\x02\x03\xf1"),
        ],
    ),
];

// Words that serve, with the port that they serve at.
fn at_port(alloc: Global, words: &str, port: u16) -> Result<String, AllocError> {
    format!(in alloc; "{words} --port {port}")
}

// Writes a file of so many blanks.
fn write_blanks<R: Files + AllocGlobal>(rt: &R, path: &str, length: usize) -> Result<(), Fail> {
    let mut text = Vec::new(rt.alloc());
    text.resize(length, b' ')?;
    fs::write(rt, path, text.as_slice())?;
    Ok(())
}

// Writes the files of the session, in the folder `out` of the one that the test is run in.
fn write_files<R: Files>(rt: &R) -> io::Result<()> {
    let files = [
        ("out/session", session_alone()),
        ("out/with_deals", session()),
        ("out/deals", deals()),
        ("out/no_deals", "{"),
    ];
    fs::create_dir_all(rt, "out")?;
    for (path, text) in files {
        fs::write(rt, path, text)?;
    }
    Ok(())
}

/// How what is told begins where what is served is kept nowhere.
pub(super) const UNKEPT: &str =
    "bridge_server: without --journal nothing is kept when the server ends
bridge_server: serves at 127.0.0.1:";

/// What is told where it is kept.
pub(super) const KEPT: &str = "bridge_server: serves at 127.0.0.1:";

// How what is told begins where another listens at the port: it isn't told that anything is served.
const TAKEN: &str = "bridge_server: NotListening (port ";

const UNKEPT_AND_TAKEN: &str =
    "bridge_server: without --journal nothing is kept when the server ends
bridge_server: NotListening (port ";

// Words by which nobody is served where another listens at the port, and how they end.
static ENDINGS: &[(&str, Ending)] = &[
    (
        "serve --session out/session --deals /nothing",
        (
            3,
            "",
            "bridge_server: Unread (/nothing: there is no such file or folder)\n",
        ),
    ),
    (
        "serve --session out/session --deals /dev/null",
        (1, "", "bridge_server: MissingBoard(1)\n"),
    ),
    (
        "serve --session out/session --deals out/no_deals",
        (1, "", "bridge_server: MissingBoard(1)\n"),
    ),
    (
        "serve --session out/with_deals --deals out/deals",
        (1, "", "bridge_server: BadField\n"),
    ),
    (
        "serve --session out/session --deals out/deals",
        (3, "", UNKEPT_AND_TAKEN),
    ),
    // A journal is made, or one is damaged.
    (
        "serve --session out/session --deals out/deals --journal out/new_journal",
        (3, "", TAKEN),
    ),
    (
        "serve --session out/session --deals out/deals --journal out/longest",
        (3, "", "bridge_server: JournalDamaged\n"),
    ),
    // Too short a file is no journal, and stays as it is.
    (
        "serve --journal out/no_deals",
        (1, "", "bridge_server: NotAJournal\n"),
    ),
    (
        "serve --journal out/no_deals",
        (1, "", "bridge_server: NotAJournal\n"),
    ),
    (
        "serve --journal out/longest",
        (3, "", "bridge_server: JournalDamaged\n"),
    ),
    // As many bytes as a file can have, and one more: what can't be read is told before anything else.
    (
        "serve --session out/session --deals out/longest",
        (1, "", "bridge_server: MissingBoard(1)\n"),
    ),
    (
        "serve --session out/with_deals --deals out/too_long",
        (
            3,
            "",
            "bridge_server: Unread (out/too_long: it is too long)\n",
        ),
    ),
];

// Whether a row's words end so.
fn ends_at<
    R: Files
        + Net
        + Clock
        + Wait
        + Threads
        + JournalFiles
        + LogFiles
        + RandomSource
        + AllocGlobal
        + Sync,
>(rt: &R, port: u16, (words, ending): &(&str, Ending)) -> bool
where
    R::Listener: Sync,
    R::Stream: Send,
{
    match at_port(rt.alloc(), words, port) {
        Ok(line) => ends(rt, line.as_str(), &mut io::empty(), ending),
        Err(_) => false,
    }
}

#[test]
fn serves_nobody_where_another_listens(rt: HostRuntime) -> Result<(), Fail> {
    write_files(&rt)?;
    write_blanks(&rt, "out/longest", MOST_FILE_BYTES)?;
    write_blanks(&rt, "out/too_long", MOST_FILE_BYTES + 1)?;
    let listener = TcpListener::bind(&rt, (Ipv4Addr::LOCALHOST, 0))?;
    let port = listener.local_addr()?.port();
    for row in ENDINGS {
        assert!(rt; ends_at(&rt, port, row), "{}", row.0);
    }
    let told = told_of_taken(rt.alloc(), port)?;
    let row = ("serve --journal out/new_journal", (3, "", told.as_str()));
    assert!(rt; ends_at(&rt, port, &row), "{told}");
    Ok(())
}

// What is told of a port at which another listens, where a journal was to be served again.
fn told_of_taken(alloc: Global, port: u16) -> Result<String, AllocError> {
    format!(in alloc; "bridge_server: NotListening (port {port}: another program listens there)\n")
}

// A port at which nothing listens.
fn free_port<R: Net>(rt: &R) -> io::Result<u16> {
    let listener = TcpListener::bind(rt, (Ipv4Addr::LOCALHOST, 0))?;
    Ok(listener.local_addr()?.port())
}

// Which client, of all that come one after another, isn't served so.
fn unserved<R: Net + Clock>(rt: &R, port: u16) -> Option<&'static str> {
    for client in CLIENTS {
        if !is_served(rt, port, client) {
            return Some(client.0);
        }
    }
    None
}

// Serves as many connections as there are clients, one after another.
const WORDS: &str = "serve --session out/session --deals out/deals --displays 1 --connections 13";

/// A port at which nothing listens, and words that serve there.
pub(super) fn port_and_line<R: Files + Net + AllocGlobal>(
    rt: &R,
    words: &str,
) -> Result<(u16, String), Fail> {
    write_files(rt)?;
    let port = free_port(rt)?;
    let line = at_port(rt.alloc(), words, port)?;
    Ok((port, line))
}

/// Where a client isn't served so, the test stops: the server would wait for another.
#[test]
fn serves_one_client_after_another(rt: HostRuntime) -> Result<(), Fail> {
    let (port, line) = port_and_line(&rt, WORDS)?;
    let server_rt = rt.clone()?;
    let server = thread::spawn(&rt, move || {
        ends(
            &server_rt,
            line.as_str(),
            &mut io::empty(),
            &(0, "", UNKEPT),
        )
    })?;
    let unserved = unserved(&rt, port);
    assert!(rt; unserved.is_none(), "{unserved:?}");
    assert!(rt; server.join(&rt));
    Ok(())
}
