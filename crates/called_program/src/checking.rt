//! A session that is looked at before it is opened.

ghost use Rattle.std.specs.Prelude.{◌≡◌, ◌≢◌, ◌⊎◌, []};
ghost use Rattle.std.specs.Io.KnownBytes.{Appends};
ghost use Rattle.program.specs.Status.{IsStatus};
ghost use Rattle.operator_lines.specs.Obstacles.{ToldWhy, obstacle_status};

use crate::serving_fault::status_of_no_memory;
use kept_sessions::{KeptSessionFault, SessionFile, texts_of_files};
use operator_lines::{FileFault, MemoryFor, Obstacle, status_of_obstacle};
use server_words::{Checking, SessionFiles};
use session_check::{tell_script, tell_session};
use std::alloc::Global;
use std::fs;
use std::io::{BufReader, ErrorKind, Write};
use std::rt::Files;

/// Looks at the session of the files, writes a line on it to the output, and answers the status: 0 where the session opens,
/// and 1 where it is refused.
pub(crate) fn status_of_check<R: Files + AllocGlobal, W: Write, E: Write>(
    rt: &R,
    checking: &Checking<'_>,
    writer: &mut W,
    errors: &mut E,
) -> u8
    ensures statuses { IsStatus result }
    ensures understood { result ≢ 2 }
    ensures silent { result ≢ 3 → result ≢ 4 → Appends (E.contents errors.old) (E.contents errors.new) [] }
    ensures why { (result ≡ 3) ⊎ (result ≡ 4) → ToldWhy result (E.contents errors.old) (E.contents errors.new) }
{
    match checking.deals {
        Some(deals) => {
            let session = checking.session;
            status_of_files(rt, &SessionFiles { session, deals }, writer, errors)
        }
        None => status_of_first_line(rt, checking.session, writer, errors),
    }
}

// The same of an object and its deals in a file of their own.
fn status_of_files<R: Files + AllocGlobal, W: Write, E: Write>(
    rt: &R,
    files: &SessionFiles<'_>,
    writer: &mut W,
    errors: &mut E,
) -> u8
    ensures statuses { (result ≡ 0) ⊎ (result ≡ 1) ⊎ (result ≡ 3) ⊎ (result ≡ 4) }
    ensures silent { result ≢ 3 → result ≢ 4 → Appends (E.contents errors.old) (E.contents errors.new) [] }
    ensures why { (result ≡ 3) ⊎ (result ≡ 4) → ToldWhy result (E.contents errors.old) (E.contents errors.new) }
{
    match texts_of_files(rt, files.session, files.deals) {
        Ok(texts) => {
            let boards = Some(texts.boards.as_slice());
            let status = tell_session(rt.alloc(), texts.object.as_slice(), boards, writer);
            told_status(rt.alloc(), status, &Obstacle::OutputUnwritten, errors)
        }
        Err(fault) => status_of_unread(rt.alloc(), fault, files, errors),
    }
}

// The same of the object in a script's first line.
fn status_of_first_line<R: Files + AllocGlobal, W: Write, E: Write>(
    rt: &R,
    script: &str,
    writer: &mut W,
    errors: &mut E,
) -> u8
    ensures statuses { (result ≡ 0) ⊎ (result ≡ 1) ⊎ (result ≡ 3) ⊎ (result ≡ 4) }
    ensures silent { result ≢ 3 → result ≢ 4 → Appends (E.contents errors.old) (E.contents errors.new) [] }
    ensures why { (result ≡ 3) ⊎ (result ≡ 4) → ToldWhy result (E.contents errors.old) (E.contents errors.new) }
{
    match open_script(rt, script) {
        Ok(file) => match BufReader::new(rt.alloc(), file) {
            Ok(mut reader) => {
                let status = tell_script(rt.alloc(), &mut reader, writer);
                told_status(rt.alloc(), status, &Obstacle::LineUntold, errors)
            }
            Err(_) => status_of_no_memory(rt.alloc(), MemoryFor::Session, errors),
        },
        Err(kind) => status_of_unopened(rt.alloc(), script, kind, errors),
    }
}

// A script's file. A folder can be opened too, and no more than that.
fn open_script<R: Files>(rt: &R, script: &str) -> Result<R::File, ErrorKind> {
    match fs::metadata(rt, script) {
        Ok(found) if found.is_dir() => Err(ErrorKind::IsADirectory),
        Ok(_) => match fs::open(rt, script) {
            Ok(file) => Ok(file),
            Err(error) => Err(error.kind()),
        },
        Err(error) => Err(error.kind()),
    }
}

// The status after a file that isn't opened.
fn status_of_unopened<E: Write>(alloc: Global, path: &str, kind: ErrorKind, errors: &mut E) -> u8
    ensures statuses { (result ≡ 3) ⊎ (result ≡ 4) }
    ensures why { (result ≡ 3) ⊎ (result ≡ 4) → ToldWhy result (E.contents errors.old) (E.contents errors.new) }
{
    match kind {
        ErrorKind::OutOfMemory => status_of_no_memory(alloc, MemoryFor::Session, errors),
        kind => {
            let why = FileFault::of_kind(kind);
            status_of_obstacle(alloc, &Obstacle::Unread(path, why), errors)
        }
    }
}

// A status as it is. Why the program couldn't do it, or that there was no memory, is told.
fn told_status<E: Write>(alloc: Global, status: u8, unable: &Obstacle<'_>, errors: &mut E) -> u8
    requires { obstacle_status unable.now ≡ 3 }
    ensures status { result ≡ status }
    ensures silent { status ≢ 3 → status ≢ 4 → Appends (E.contents errors.old) (E.contents errors.new) [] }
    ensures why { (result ≡ 3) ⊎ (result ≡ 4) → ToldWhy result (E.contents errors.old) (E.contents errors.new) }
{
    match status {
        3 => status_of_obstacle(alloc, unable, errors),
        4 => status_of_no_memory(alloc, MemoryFor::Session, errors),
        _ => status,
    }
}

// The status after files that aren't read.
fn status_of_unread<E: Write>(
    alloc: Global,
    fault: KeptSessionFault,
    files: &SessionFiles<'_>,
    errors: &mut E,
) -> u8
    ensures statuses { (result ≡ 3) ⊎ (result ≡ 4) }
    ensures why { (result ≡ 3) ⊎ (result ≡ 4) → ToldWhy result (E.contents errors.old) (E.contents errors.new) }
{
    match fault {
        KeptSessionFault::OutOfMemory => status_of_no_memory(alloc, MemoryFor::Session, errors),
        KeptSessionFault::Unread(SessionFile::Boards, why) => {
            status_of_obstacle(alloc, &Obstacle::Unread(files.deals, why), errors)
        }
        KeptSessionFault::Unread(SessionFile::Object, why) => {
            status_of_obstacle(alloc, &Obstacle::Unread(files.session, why), errors)
        }
        // Reading two files meets no other fault.
        _ => status_of_obstacle(
            alloc,
            &Obstacle::Unread(files.session, FileFault::Failed),
            errors,
        ),
    }
}
