//! The bytes of a journal that is closed.

ghost use Rattle.std.specs.Prelude.{◌≡◌, IfOk, IfErr, IsTrue};
ghost use Rattle.kept_sessions.specs.Faults.{IsFailedCopy};

use crate::source_fault::KeptSessionFault;
use journal_store::close_journal;
use row_journal::{FoundJournal, JournalFault, fault_of_file};
use sqlite::FileStore;
use sqlite_disk::Disk;
use std::alloc::Global;

/// All bytes of a journal's file, once its log is in it.
pub(crate) fn bytes_of_closed<D: Disk + Drop>(
    alloc: Global,
    found: FoundJournal<FileStore<D>>,
) -> Result<Vec<u8>, KeptSessionFault>
    ensures { IfErr result IsFailedCopy }
{
    match close_journal(found.into_connection()) {
        Ok(mut files) => bytes_of(alloc, &mut files.db),
        Err(fault) => Err(KeptSessionFault::Journal(fault_of_file(fault))),
    }
}

// All bytes of a file.
fn bytes_of<D: Disk>(alloc: Global, file: &mut D) -> Result<Vec<u8>, KeptSessionFault>
    ensures bytes { IfOk result (λ bytes. IsTrue (D.is_clean file.new) → bytes.items ≡ D.seen file.old) }
    ensures failed { IfErr result IsFailedCopy }
{
    if !file.may_be_used() {
        return Err(KeptSessionFault::Journal(JournalFault::Unread));
    }
    let Ok(length) = file.len() else {
        return Err(KeptSessionFault::Journal(JournalFault::Unread));
    };
    let mut bytes = Vec::new(alloc);
    if bytes.resize(length, 0).is_err() {
        return Err(KeptSessionFault::OutOfMemory);
    }
    match file.read_at(0, bytes.as_mut_slice()) {
        Ok(()) => Ok(bytes),
        Err(_) => Err(KeptSessionFault::Journal(JournalFault::Unread)),
    }
}
