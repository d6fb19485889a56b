//! A copy of a journal, made where no server has it.

ghost use Rattle.std.specs.Prelude.{IfErr};
ghost use Rattle.sqlite.specs.WalFiles.{image_at};
ghost use Rattle.kept_sessions.specs.Faults.{AreCleanlyLeft, IsFailedCopy, WhyNotCopied};

use crate::closed_journal::bytes_of_closed;
use crate::paths::may_hold_database;
use crate::source_fault::KeptSessionFault;
use journal_store::JournalFiles;
use row_journal::{FoundJournal, open_kept_journal};
use script_lines::write_text;
use sqlite::{FileFrom, FileStore, Leftover, Start};
use sqlite_disk::Disk;
use std::fs::{File, OpenFile};
use std::io::{ErrorKind, Write};
use std::rt::Files;

/// Copies the journal at a path to one where nothing is yet. The copy is a whole journal by itself. A refusal comes with what
/// is left of the journal's files, once they were opened and where the journal isn't closed.
pub fn copy_journal<R: Files + JournalFiles + AllocGlobal, S: Start>(
    rt: &R,
    path: &str,
    start: S,
    to: &str,
) -> Result<(), (KeptSessionFault, Option<Leftover<FileFrom<S>>>)>
    ensures why { IfErr result (λ e. AreCleanlyLeft e.1 → WhyNotCopied (image_at S.Start) e.1 e.0) }
{
    match may_hold_database(rt, path) {
        Ok(true) => {}
        Ok(false) => return Err((KeptSessionFault::NoJournal, None)),
        Err(fault) => return Err((KeptSessionFault::Journal(fault), None)),
    }
    let found = match open_kept_journal(rt, path, start) {
        Ok((_session, found)) => found,
        Err((fault, left)) => return Err((KeptSessionFault::Journal(fault), left)),
    };
    match copy_closed(rt, found, to) {
        Ok(()) => Ok(()),
        Err(fault) => Err((fault, None)),
    }
}

// Closes a journal, and copies it to a path where nothing is yet.
fn copy_closed<R: Files + AllocGlobal, D: Disk + Drop>(
    rt: &R,
    found: FoundJournal<FileStore<D>>,
    to: &str,
) -> Result<(), KeptSessionFault>
    ensures { IfErr result IsFailedCopy }
{
    match bytes_of_closed(rt.alloc(), found) {
        Ok(bytes) => write_new(rt, to, bytes.as_slice()),
        Err(fault) => Err(fault),
    }
}

// Writes a file whole, and has it on the disk.
fn write_and_sync<F: Write + OpenFile>(file: &mut F, bytes: &[u8]) -> Result<(), KeptSessionFault>
    ensures { IfErr result IsFailedCopy }
{
    if write_text(file, bytes).is_err() {
        return Err(KeptSessionFault::CopyUnwritten);
    }
    match file.sync_all() {
        Ok(()) => Ok(()),
        Err(_) => Err(KeptSessionFault::CopyUnwritten),
    }
}

// Writes a file that isn't there yet, and has it on the disk.
fn write_new<R: Files>(rt: &R, path: &str, bytes: &[u8]) -> Result<(), KeptSessionFault>
    ensures { IfErr result IsFailedCopy }
{
    match File::create_new(rt, path) {
        Ok(mut file) => write_and_sync(&mut file, bytes),
        Err(error) if error.kind() == ErrorKind::AlreadyExists => Err(KeptSessionFault::CopyExists),
        Err(_) => Err(KeptSessionFault::CopyUnwritten),
    }
}
