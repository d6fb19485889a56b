//! Why a session isn't served, or a journal isn't told or copied, and the status after it.

ghost use Rattle.std.specs.Prelude.{◌≡◌, ◌≢◌, ◌⊎◌, false};
ghost use Rattle.kept_sessions.specs.Sources.{is_of_a_journal};
ghost use Rattle.operator_lines.specs.Obstacles.{ToldWhy};

use kept_sessions::{KeptSessionFault, SessionFile};
use operator_lines::{MemoryFor, Obstacle, PortFault, status_of_obstacle};
use row_journal::JournalFault;
use server_words::SessionFiles;
use std::alloc::Global;
use std::io::Write;

/// Why a session that was opened isn't served.
#[derive(Clone, Copy)]
pub(crate) enum ServingFault {
    /// The entry of this number, from 1, isn't accepted where it stands in the journal.
    NotAccepted(u32),
    /// Nothing can listen at this port.
    NotListening(u16, PortFault),
    /// There is no memory.
    OutOfMemory,
    /// There is no place for a display.
    NoPlace,
    /// No thread could be started for any display.
    NoThread,
}

/// The status after a fault, which is told.
pub(crate) fn status_of_serving_fault<E: Write>(
    alloc: Global,
    fault: ServingFault,
    errors: &mut E,
) -> u8
    ensures statuses { (result ≡ 1) ⊎ (result ≡ 3) ⊎ (result ≡ 4) }
    ensures why { (result ≡ 3) ⊎ (result ≡ 4) → ToldWhy result (E.contents errors.old) (E.contents errors.new) }
{
    match fault {
        ServingFault::NotAccepted(number) => {
            status_of_source_fault(alloc, KeptSessionFault::NotAccepted(number), None, errors)
        }
        ServingFault::NotListening(port, why) => {
            status_of_obstacle(alloc, &Obstacle::NotListening(port, why), errors)
        }
        ServingFault::OutOfMemory => status_of_no_memory(alloc, MemoryFor::Threads, errors),
        ServingFault::NoPlace => status_of_obstacle(alloc, &Obstacle::NoPlace, errors),
        ServingFault::NoThread => status_of_obstacle(alloc, &Obstacle::NoThread, errors),
    }
}

/// The status after a session wasn't opened from its files or its journal, or that wasn't told or copied. Why is told.
pub(crate) fn status_of_source_fault<E: Write>(
    alloc: Global,
    fault: KeptSessionFault,
    files: Option<&SessionFiles<'_>>,
    errors: &mut E,
) -> u8
    ensures statuses { (result ≡ 1) ⊎ (result ≡ 3) ⊎ (result ≡ 4) }
    ensures memory { result ≡ 4 → ToldWhy result (E.contents errors.old) (E.contents errors.new) }
    ensures unread { result ≡ 3 → is_of_a_journal fault ≡ false →
        ToldWhy result (E.contents errors.old) (E.contents errors.new) }
{
    match fault {
        KeptSessionFault::OutOfMemory => status_of_no_memory(alloc, MemoryFor::Session, errors),
        KeptSessionFault::Journal(JournalFault::OutOfMemory) => {
            status_of_no_memory(alloc, MemoryFor::Journal, errors)
        }
        KeptSessionFault::Unopened(fault) if fault.is_out_of_memory() => {
            status_of_no_memory(alloc, MemoryFor::Session, errors)
        }
        KeptSessionFault::Unread(file, why) => {
            status_of_obstacle(alloc, &Obstacle::Unread(path_of(files, file), why), errors)
        }
        _ => {
            // Where it can't be written, the status still tells.
            let _unwritten = writeln!(errors, "bridge_server: {fault}");
            status_of_named(fault)
        }
    }
}

/// The status after want of memory for something, which is told.
pub(crate) fn status_of_no_memory<E: Write>(alloc: Global, purpose: MemoryFor, errors: &mut E) -> u8
    ensures status { result ≡ 4 }
    ensures why { ToldWhy result (E.contents errors.old) (E.contents errors.new) }
{
    status_of_obstacle(alloc, &Obstacle::OutOfMemory(purpose), errors)
}

// The path of a file of a session.
fn path_of<'a>(files: Option<&SessionFiles<'a>>, file: SessionFile) -> &'a str {
    match (files, file) {
        (Some(files), SessionFile::Object) => files.session,
        (Some(files), SessionFile::Boards) => files.deals,
        // Without files none is read.
        (None, _) => "",
    }
}

// The status after a fault that is named.
fn status_of_named(fault: KeptSessionFault) -> u8
    ensures statuses { (result ≡ 1) ⊎ (result ≡ 3) }
    ensures journal { result ≡ 3 → is_of_a_journal fault ≢ false }
{
    match fault {
        KeptSessionFault::Journal(JournalFault::Busy | JournalFault::Damaged | JournalFault::Unread)
        | KeptSessionFault::CopyUnwritten => 3,
        _ => 1,
    }
}
