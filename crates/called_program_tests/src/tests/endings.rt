//! How a script ends whose reader or writer fails.

use super::devices::{FailingWriter, Holding, Waiting, line_feeds};
use super::running::status_of;
use super::session::script_of;
use event_log::LogFiles;
use journal_store::JournalFiles;
use std::alloc::{AllocError, Global};
use std::cell::Cell;
use std::io::{self, ErrorKind};
use std::net::Net;
use std::random::RandomSource;
use std::rt::Files;
use std::sync::Wait;
use std::test::Fail;
use std::thread::Threads;
use std::time::Clock;
use test_devices::FailingReader;

// Messages after the session's line, each of which has an answer. The last line has no LF.
const MESSAGES: &str = "
{\"as\":\"n2\",\"ask\":\"board\",\"board\":2}\r
{\"ask\":
{\"as\":\"k\",\"do\":[{\"board\":2,\"cmd\":\"Enter\",\"result\":\"pass\",\"table\":2},{\"board\":2,\"cmd\":\"Confirm\",\"result\":\"pass\",\"table\":2}]}
{\"as\":\"n2\",\"ask\":\"board\",\"board\":2}
{\"as\":\"zz\",\"ask\":\"board\",\"board\":2}";

fn script_of_messages(alloc: Global) -> Result<Vec<u8>, AllocError> {
    script_of(alloc, 0, MESSAGES)
}

// Their answers, a line each.
fn answers() -> &'static str {
    r#"{"denied":{"board":2,"rule":5,"table":2,"why":"your pair has still to play this board"},"version":0}
{"error":"Malformed"}
{"answers":["ok","ok"],"first":1,"last":2,"version":2}
{"board":{"deal":"N:...AKQJT98765432 AKQJT98765432... .AKQJT98765432.. ..AKQJT98765432.","dealer":"E","number":2,"vul":"ns"},"version":2}
{"denied":{"board":0,"rule":1,"table":0,"why":"no such account"},"version":2}
"#
}

// What follows so many lines of a text.
fn after_lines(text: &[u8], lines: usize) -> &[u8] {
    text.splitn(lines.saturating_add(1), |byte| *byte == b'\n')
        .nth(lines)
        .unwrap_or(&[])
}

// Whether the answers to the messages whose lines had ended are written, and no more, where a read fails after so
// many bytes.
fn answers_what_was_read<
    R: Files
        + Net
        + Clock
        + Wait
        + Threads
        + JournalFiles
        + LogFiles
        + RandomSource
        + AllocGlobal
        + Sync,
>(rt: &R, script: &[u8], good: usize) -> bool
where
    R::Listener: Sync,
    R::Stream: Send,
{
    let mut reader = FailingReader {
        bytes: script,
        good,
        fault: ErrorKind::Interrupted,
    };
    let mut written = Vec::new(rt.alloc());
    let status = status_of(rt, "script", &mut reader, &mut written, &mut io::sink());
    let messages = line_feeds(script.get(..good).unwrap_or(script)).saturating_sub(1);
    let answers = answers().as_bytes();
    let unwritten = answers.strip_prefix(written.as_slice());
    status == 3 && unwritten == Some(after_lines(answers, messages))
}

// Whether so many bytes of the answers are written, where a write fails after them, and no line is read after it.
fn writes_a_first_part<
    R: Files
        + Net
        + Clock
        + Wait
        + Threads
        + JournalFiles
        + LogFiles
        + RandomSource
        + AllocGlobal
        + Sync,
>(rt: &R, script: &[u8], room: usize) -> bool
where
    R::Listener: Sync,
    R::Stream: Send,
{
    let mut reader = script;
    let mut writer = FailingWriter::new(rt.alloc(), room, ErrorKind::Interrupted);
    let status = status_of(rt, "script", &mut reader, &mut writer, &mut io::sink());
    let written = writer.held.as_slice();
    // The session's line is read, a line for each answer, and the one whose answer isn't written.
    let unread = after_lines(script, line_feeds(written).saturating_add(2));
    status == 3 && answers().as_bytes().get(..room) == Some(written) && reader == unread
}

/// A read or a write that failed isn't tried again, though it would succeed, and nothing is read after a write that
/// failed.
#[test]
fn ends_where_a_read_or_a_write_fails(rt: HostRuntime) -> Result<(), Fail> {
    let script = script_of_messages(rt.alloc())?;
    for good in 0..=script.len() {
        assert!(rt;
            answers_what_was_read(&rt, script.as_slice(), good),
            "read {good}"
        );
    }
    for room in 0..answers().len() {
        assert!(rt;
            writes_a_first_part(&rt, script.as_slice(), room),
            "wrote {room}"
        );
    }
    Ok(())
}

// Whether a script ends so, each line of which but the last is answered before the next is read, through a writer
// that keeps its lines back until it is flushed, and has room for so many, which arrive.
fn answers_in_turn<
    R: Files
        + Net
        + Clock
        + Wait
        + Threads
        + JournalFiles
        + LogFiles
        + RandomSource
        + AllocGlobal
        + Sync,
>(rt: &R, script: &[u8], room: usize, status: u8) -> bool
where
    R::Listener: Sync,
    R::Stream: Send,
{
    let arrived = Cell::new(0usize);
    let mut reader = Waiting {
        script,
        read: 0,
        arrived: &arrived,
    };
    let mut writer = Holding {
        held: 0,
        room,
        arrived: &arrived,
    };
    status_of(rt, "script", &mut reader, &mut writer, &mut io::sink()) == status
        && arrived.get() == room
}

#[test]
fn passes_each_answer_on(rt: HostRuntime) -> Result<(), Fail> {
    let script = script_of_messages(rt.alloc())?;
    for (room, status) in [(0, 3), (4, 3), (5, 0)] {
        assert!(rt;
            answers_in_turn(&rt, script.as_slice(), room, status),
            "{room} lines"
        );
    }
    Ok(())
}
