//! Why no folder is made for a session, and the status after it.

ghost use Rattle.std.specs.Prelude.{◌≡◌, ◌⊎◌};
ghost use Rattle.operator_lines.specs.Obstacles.{ToldWhy};

use crate::serving_fault::{status_of_no_memory, status_of_source_fault};
use kept_sessions::KeptSessionFault;
use operator_lines::{FileFault, MemoryFor, Obstacle, status_of_obstacle};
use people_list::PeopleFault;
use preparing::PreparingFault;
use server_words::{Preparing, SessionFiles};
use std::alloc::{AllocError, Global};
use std::io::Write;
use thiserror::Error;

/// What is made for a session: a folder, and files in it.
#[derive(Clone, Copy, Debug)]
pub(crate) enum FolderPart {
    Folder,
    Session,
    Tokens,
    Cards,
}

impl FolderPart {
    // What stands behind the folder's path.
    fn name(self) -> &'static str {
        match self {
            FolderPart::Folder => "",
            FolderPart::Session => "/session.json",
            FolderPart::Tokens => "/tokens.csv",
            FolderPart::Cards => "/cards.html",
        }
    }
}

/// Why no folder is made for a session.
#[derive(Clone, Copy, Debug, Error)]
pub(crate) enum FolderFault {
    #[error("BadMovement (the movements are mitchell, howell, share_and_relay and web)")]
    BadMovement,
    #[error("BadAbsent (a pair is NS or EW and a number from 1, as EW9)")]
    BadAbsent,
    /// The list of people or the deals aren't read.
    #[error("{0}")]
    Source(KeptSessionFault),
    #[error("{0}")]
    People(PeopleFault),
    #[error("{0}")]
    Preparing(PreparingFault),
    #[error("NoRandomness")]
    NoRandomness,
    #[error("FolderExists (something is at the path of the folder: nothing is written over)")]
    FolderExists,
    /// The folder isn't made, or this file in it isn't written.
    #[error("Unwritten")]
    Unwritten(FolderPart, FileFault),
    #[error("OutOfMemory")]
    NoMemory,
}

impl From<AllocError> for FolderFault {
    fn from(_: AllocError) -> FolderFault {
        FolderFault::NoMemory
    }
}

/// The status after a fault, which is told.
pub(crate) fn status_of_folder_fault<E: Write>(
    alloc: Global,
    fault: FolderFault,
    preparing: &Preparing<'_>,
    errors: &mut E,
) -> u8
    ensures statuses { (result ≡ 1) ⊎ (result ≡ 3) ⊎ (result ≡ 4) }
    ensures memory { result ≡ 4 → ToldWhy result (E.contents errors.old) (E.contents errors.new) }
{
    match fault {
        FolderFault::NoMemory
        | FolderFault::People(PeopleFault::OutOfMemory)
        | FolderFault::Preparing(PreparingFault::OutOfMemory) => {
            status_of_no_memory(alloc, MemoryFor::Session, errors)
        }
        FolderFault::Source(fault) => status_of_sources(alloc, fault, preparing, errors),
        FolderFault::NoRandomness => status_of_obstacle(alloc, &Obstacle::NoRandomness, errors),
        FolderFault::Unwritten(part, why) => {
            status_of_unwritten(alloc, part, why, preparing.to, errors)
        }
        _ => {
            // Where it can't be written, the status still tells.
            let _unwritten = writeln!(errors, "bridge_server: {fault}");
            1
        }
    }
}

// The status after the list of people or the deals weren't read.
fn status_of_sources<E: Write>(
    alloc: Global,
    fault: KeptSessionFault,
    preparing: &Preparing<'_>,
    errors: &mut E,
) -> u8
    ensures statuses { (result ≡ 1) ⊎ (result ≡ 3) ⊎ (result ≡ 4) }
    ensures memory { result ≡ 4 → ToldWhy result (E.contents errors.old) (E.contents errors.new) }
{
    let files = SessionFiles {
        session: preparing.people,
        deals: preparing.deals,
    };
    status_of_source_fault(alloc, fault, Some(&files), errors)
}

// The status after the folder wasn't made, or a file in it wasn't written.
fn status_of_unwritten<E: Write>(
    alloc: Global,
    part: FolderPart,
    why: FileFault,
    folder: &str,
    errors: &mut E,
) -> u8
    ensures { result ≡ 3 }
{
    let name = part.name();
    match format!(in alloc; "{folder}{name}") {
        Ok(path) => status_of_obstacle(alloc, &Obstacle::Unwritten(path.as_str(), why), errors),
        Err(_) => status_of_obstacle(alloc, &Obstacle::Unwritten(folder, why), errors),
    }
}
