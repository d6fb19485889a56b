//! The texts of a session's two files.

ghost use Rattle.std.specs.Prelude.{◌≡◌, ◌≤◌, length, false, IfOk, IfErr, IfSome};
ghost use Rattle.kept_sessions.specs.declared.source_fault.SessionFile.TheVariants.{Object, Boards};
ghost use Rattle.kept_sessions.specs.Sources.{IsFaultOfFile, IsUnread, SaysTooLong, most_file_bytes, is_of_a_journal};

use crate::paths::fault_of_reading;
use crate::source_fault::{KeptSessionFault, SessionFile};
use operator_lines::FileFault;
use std::alloc::Global;
use std::io::Read;

/// How many bytes a file has at most.
pub const MOST_FILE_BYTES: usize = 16_777_216;

/// The texts of a session's two files.
#[derive(Drop)]
pub struct SourceTexts {
    /// The session object's.
    pub object: Vec<u8>,
    /// The boards'.
    pub boards: Vec<u8>,
}

/// All that two readers give, the session object's first.
pub fn read_texts<I: Read + Drop, J: Read + Drop>(
    alloc: Global,
    object: I,
    boards: J,
) -> Result<SourceTexts, KeptSessionFault>
    ensures object { IfOk result (λ texts. IfSome (I.remaining object) (λ all. texts.object.items ≡ all)) }
    ensures boards { IfOk result (λ texts. IfSome (J.remaining boards) (λ all. texts.boards.items ≡ all)) }
    ensures few { IfOk result (λ texts. (length texts.object.items ≤ most_file_bytes)
        × (length texts.boards.items ≤ most_file_bytes)) }
    ensures fault { IfErr result (λ fault. is_of_a_journal fault ≡ false) }
    ensures unread { IfErr result IsUnread }
    ensures long_object { IfErr result (λ fault. SaysTooLong Object fault (I.remaining object)) }
    ensures long_boards { IfErr result (λ fault. SaysTooLong Boards fault (J.remaining boards)) }
{
    let object = match read_whole(alloc, SessionFile::Object, object) {
        Ok(bytes) => bytes,
        Err(fault) => return Err(fault),
    };
    match read_whole(alloc, SessionFile::Boards, boards) {
        Ok(boards) => Ok(SourceTexts { object, boards }),
        Err(fault) => Err(fault),
    }
}

// All bytes of a reader, unless there are too many.
fn read_whole<I: Read + Drop>(
    alloc: Global,
    file: SessionFile,
    reader: I,
) -> Result<Vec<u8>, KeptSessionFault>
    ensures whole { IfOk result (λ bytes. IfSome (I.remaining reader) (λ all. bytes.items ≡ all)) }
    ensures few { IfOk result (λ bytes. length bytes.items ≤ most_file_bytes) }
    ensures fault { IfErr result (λ fault. is_of_a_journal fault ≡ false) }
    ensures unread { IfErr result IsUnread }
    ensures file { IfErr result (IsFaultOfFile file) }
    ensures long { IfErr result (λ fault. SaysTooLong file fault (I.remaining reader)) }
{
    let mut bytes = Vec::new(alloc);
    match reader
        .take(MOST_FILE_BYTES as u64 + 1)
        .read_to_end(&mut bytes)
    {
        Ok(_) if bytes.len() <= MOST_FILE_BYTES => Ok(bytes),
        Ok(_) => Err(KeptSessionFault::Unread(file, FileFault::TooLong)),
        Err(error) => Err(fault_of_reading(file, error.kind())),
    }
}
