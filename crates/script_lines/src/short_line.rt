//! A line that is to have so many bytes at most.

ghost use Rattle.std.specs.Prelude.{◌≡◌, ◌≢◌, ◌+◌, ◌≤◌, ◌∷◌, ◌++◌, [], ℕ, List, Option, IfOk, IfErr, length};
ghost use Rattle.std.specs.Io.KnownBytes.{Consumes};
ghost use Rattle.script_lines.specs.Reading.{IsUnbroken, TakesUpTo, FailsFor};

use crate::line_end::LineEnd;
use crate::reading::{ReadFault, drop_return, take_byte};
use crate::source::ByteSource;

/// Reads the next line as `read_line` does, if it has no more than `most` bytes; else there is none, and not more than
/// so many bytes of it are kept.
pub fn read_short_line<R: ByteSource>(
    reader: &mut R,
    line: &mut Vec<u8>,
    most: usize,
    left: &mut usize,
) -> Result<Option<LineEnd>, ReadFault>
    ensures line { IfOk result (λ found. TakesUpTo found
        (R.remaining reader.old) (R.remaining reader.new) line.new.items most left.old left.new) }
    ensures fault { IfErr result (λ fault. FailsFor R.fails fault
        (R.remaining reader.old) (R.remaining reader.new) most line.new.items left.old left.new) }
    ensures kept { length line.new.items ≤ most }
    ensures same { R.place reader.new ≡ R.place reader.old }
{
    line.clear();
    loop {
        match take_byte(reader, left) {
            Ok(Some(b'\n')) => {
                drop_return(line);
                return Ok(Some(LineEnd::LineFeed));
            }
            Ok(Some(byte)) => {
                if line.len() == most {
                    return end_of_full_line(byte, reader, left);
                }
                if line.push(byte).is_err() {
                    return Err(ReadFault::OutOfMemory);
                }
            }
            Ok(None) => return Ok(Some(LineEnd::EndOfInput)),
            Err(fault) => return Err(fault),
        }
    }
}

// Whether a line that has as many bytes as it may have ends with this byte, which follows them: it does where the byte
// is a CR before an LF.
fn end_of_full_line<R: ByteSource>(
    byte: u8,
    reader: &mut R,
    left: &mut usize,
) -> Result<Option<LineEnd>, ReadFault>
    requires { byte ≢ 10 }
    ensures line { (before : Option (List ℕ)) (line : List ℕ) (most all : ℕ) → IsUnbroken line → length line ≡ most →
        Consumes before (R.remaining reader.old) (line ++ byte ∷ []) → left.old + (length line + 1) ≡ all →
        IfOk result (λ found. TakesUpTo found before (R.remaining reader.new) line most all left.new) }
    ensures fault { (before : Option (List ℕ)) (line : List ℕ) (most all : ℕ) → IsUnbroken line → length line ≡ most →
        Consumes before (R.remaining reader.old) (line ++ byte ∷ []) → left.old + (length line + 1) ≡ all →
        IfErr result (λ fault. FailsFor R.fails fault before (R.remaining reader.new) most line all left.new) }
    ensures same { R.place reader.new ≡ R.place reader.old }
{
    if byte != b'\r' {
        return Ok(None);
    }
    match take_byte(reader, left) {
        Ok(Some(next)) => {
            if next == b'\n' {
                Ok(Some(LineEnd::LineFeed))
            } else {
                Ok(None)
            }
        }
        Ok(None) => Ok(None),
        Err(fault) => Err(fault),
    }
}
