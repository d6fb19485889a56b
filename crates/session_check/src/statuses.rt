//! What is found is told on a line, with a status: 0 where the session opens, 1 where it is refused, 3 where something can't be
//! read or written, and 4 where there is no memory.

ghost use Rattle.std.specs.Prelude.{◌≡◌, ◌⊎◌, true, false, option_map};
ghost use Rattle.serde_json.specs.Data.{Data};
ghost use Rattle.session_object.specs.Reading.{IsObjectText};
ghost use Rattle.session_state.specs.SessionState.{SessionState};
ghost use Rattle.opened_session.specs.Opened.{OpensWith, OpensNoneWith, is_want_of_memory};
ghost use Rattle.opened_session.specs.declared.opening_fault.OpeningFault.{OpeningFault};
ghost use Rattle.opened_session.specs.declared.opening_fault.OpeningFault.TheVariants.{Session};
ghost use Rattle.session_object.specs.declared.session_fault.SessionFault.TheVariants.{BadField};

use crate::checking::check_session;
use crate::misread::first_misread;
use crate::refused::Refused;
use opened_session::OpeningFault;
use script_lines::{ReadFault, read_line, write_text};
use session_object::{MOST_BYTES, SessionFault};
use std::alloc::{AllocError, Global};
use std::io::{Read, Write};

// How many bytes of a script are read at most to find the end of its first line.
const SCRIPT_LIMIT: usize = 1_073_741_824;

/// Looks at the session object in a script's first line. Of a line that is too long so much is kept as shows this.
pub fn tell_script<I: Read, W: Write>(alloc: Global, reader: &mut I, writer: &mut W) -> u8
    ensures { (result ≡ 0) ⊎ (result ≡ 1) ⊎ (result ≡ 3) ⊎ (result ≡ 4) }
{
    let mut line = Vec::new(alloc);
    let mut left = SCRIPT_LIMIT;
    let mut source = reader;
    match read_line(&mut source, &mut line, MOST_BYTES, &mut left) {
        Ok(_) => tell_session(alloc, line.as_slice(), None, writer),
        Err(ReadFault::Input) => 3,
        Err(ReadFault::OutOfMemory) => 4,
    }
}

/// Looks at a session object, whose boards are the ones that are given beside it, or else those in it.
pub fn tell_session<W: Write>(
    alloc: Global,
    text: &[u8],
    given: Option<&[u8]>,
    writer: &mut W,
) -> u8
    ensures statuses { (result ≡ 0) ⊎ (result ≡ 1) ⊎ (result ≡ 3) ⊎ (result ≡ 4) }
    ensures opens { result ≡ 0 → (opening : SessionState)
        × OpensWith (option_map (λ bytes. bytes.now) given.entry) text.now opening }
    ensures refused { result ≡ 1 → (fault : OpeningFault)
        × OpensNoneWith (option_map (λ bytes. bytes.now) given.entry) fault text.now × (is_want_of_memory fault ≡ false) }
{
    match check_session(alloc, text, given) {
        Ok(summary) => status_of_line(format!(in alloc; "{summary}\n"), 0, writer),
        Err(refused) => {
            if is_bad_field(refused.fault) {
                return tell_misread(alloc, text, given.is_some(), writer);
            }
            tell_refused(alloc, &refused, writer)
        }
    }
}

// Whether some member isn't as it should be.
fn is_bad_field(fault: OpeningFault) -> bool
    ensures { result ≡ true → fault ≡ Session BadField }
{
    matches!(fault, OpeningFault::Session(SessionFault::BadField))
}

// Tells which member of an object isn't as it should be.
fn tell_misread<W: Write>(alloc: Global, text: &[u8], beside: bool, writer: &mut W) -> u8
    requires { (d : Data) × IsObjectText text.now d }
    ensures { (result ≡ 1) ⊎ (result ≡ 3) ⊎ (result ≡ 4) }
{
    match first_misread(alloc, text, beside) {
        Ok(member) => status_of_line(format!(in alloc; "BadField: {member}\n"), 1, writer),
        Err(_) => 4,
    }
}

// Tells another refusal.
fn tell_refused<W: Write>(alloc: Global, refused: &Refused, writer: &mut W) -> u8
    ensures statuses { (result ≡ 1) ⊎ (result ≡ 3) ⊎ (result ≡ 4) }
    ensures refused { result ≡ 1 → is_want_of_memory refused.now.fault ≡ false }
{
    if refused.fault.is_out_of_memory() {
        return 4;
    }
    status_of_line(format!(in alloc; "{refused}\n"), 1, writer)
}

// Writes a line, and answers this status, or why it isn't written.
fn status_of_line<W: Write>(line: Result<String, AllocError>, status: u8, writer: &mut W) -> u8
    ensures { (result ≡ status) ⊎ (result ≡ 3) ⊎ (result ≡ 4) }
{
    match line {
        Ok(line) => match write_text(writer, line.as_bytes()) {
            Ok(()) => status,
            Err(_) => 3,
        },
        Err(_) => 4,
    }
}
