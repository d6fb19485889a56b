//! Files at paths: those of a session, and whether one may hold a database.

ghost use Rattle.std.specs.Prelude.{◌≡◌, ◌≢◌, ℕ, List, false, true, IfOk, IfErr};
ghost use Rattle.operator_lines.specs.declared.file_fault.FileFault.TheVariants.{TooLong};
ghost use Rattle.row_journal.specs.Faults.{is_file_unopened};
ghost use Rattle.kept_sessions.specs.declared.source_fault.KeptSessionFault.TheVariants.{Unread};
ghost use Rattle.kept_sessions.specs.Sources.{AreOfFiles, IsFaultOfFile, IsSessionOf, IsUnread, WhyFilesOpenNone};
ghost use Rattle.kept_sessions.specs.Sources.{is_of_a_journal};

use crate::source_fault::{KeptSessionFault, SessionFile};
use crate::source_texts::{SourceTexts, read_texts};
use crate::texts_session::session_of_texts;
use opened_session::OpenedSession;
use operator_lines::FileFault;
use row_journal::JournalFault;
use std::fs;
use std::io::ErrorKind;
use std::rt::Files;

// How many bytes a page of a database has at least.
const LEAST_DATABASE_BYTES: u64 = 512;

/// The texts of the files at two paths: the session object's is opened first, and read first.
pub fn texts_of_files<R: Files + AllocGlobal>(
    rt: &R,
    object_path: &str,
    boards_path: &str,
) -> Result<SourceTexts, KeptSessionFault>
    ensures texts { IfOk result (λ texts. AreOfFiles R.File.remaining texts.object.items texts.boards.items) }
    ensures fault { IfErr result (λ fault. is_of_a_journal fault ≡ false) }
    ensures unread { IfErr result IsUnread }
{
    let object = match fs::open(rt, object_path) {
        Ok(file) => file,
        Err(error) => return Err(fault_of_reading(SessionFile::Object, error.kind())),
    };
    match fs::open(rt, boards_path) {
        Ok(boards) => read_texts(rt.alloc(), object, boards),
        Err(error) => Err(fault_of_reading(SessionFile::Boards, error.kind())),
    }
}

/// The session that the files at two paths open.
pub fn session_of_files<R: Files + AllocGlobal>(
    rt: &R,
    object_path: &str,
    boards_path: &str,
) -> Result<OpenedSession, KeptSessionFault>
    ensures session { IfOk result (λ session. (object boards : List ℕ) × AreOfFiles R.File.remaining object boards
        × IsSessionOf object boards session.book.opening session.book.journal session.budget) }
    ensures fault { IfErr result (λ fault. is_of_a_journal fault ≡ false) }
    ensures why { IfErr result (WhyFilesOpenNone R.File.remaining) }
{
    match texts_of_files(rt, object_path, boards_path) {
        Ok(texts) => {
            let boards = texts.boards.as_slice();
            session_of_texts(rt.alloc(), texts.object.as_slice(), boards)
        }
        Err(fault) => Err(fault),
    }
}

/// What an error of the system is to one who reads a session's file.
pub(crate) fn fault_of_reading(file: SessionFile, kind: ErrorKind) -> KeptSessionFault
    ensures source { is_of_a_journal result ≡ false }
    ensures file { IsFaultOfFile file result }
    ensures short { result ≢ Unread file TooLong }
    ensures unread { IsUnread result }
{
    match kind {
        ErrorKind::OutOfMemory => KeptSessionFault::OutOfMemory,
        kind => KeptSessionFault::Unread(file, FileFault::of_kind(kind)),
    }
}

/// Whether there is something at a path that may hold a database. A shorter file holds none, and an open would make one in
/// it.
pub(crate) fn may_hold_database<R: Files>(rt: &R, path: &str) -> Result<bool, JournalFault>
    ensures { IfErr result (λ fault. is_file_unopened fault ≡ true) }
{
    match fs::metadata(rt, path) {
        Ok(found) => Ok(!found.is_file() || found.len() >= LEAST_DATABASE_BYTES),
        Err(error) if error.kind() == ErrorKind::NotFound => Ok(false),
        Err(error) if error.kind() == ErrorKind::OutOfMemory => Err(JournalFault::OutOfMemory),
        Err(_) => Err(JournalFault::Unread),
    }
}
