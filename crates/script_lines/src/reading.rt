ghost use Rattle.std.specs.Prelude.{◌≡◌, ◌+◌, ◌≤◌, ◌∷◌, ◌++◌, [], ◌↔◌, ℕ, List, true, take, length, IfOk, IfErr, OnOk, OnErr};
ghost use Rattle.script_lines.specs.Reading.{TakesKept, FailsFor};
ghost use Rattle.script_lines.specs.Lines.{ended_line};
ghost use Rattle.script_lines.specs.NextByte.{TakesByte, GivesNoByte};
ghost use Rattle.script_lines.specs.declared.reading.ReadFault.TheVariants.{Input};

use crate::line_end::LineEnd;
use crate::source::ByteSource;
use std::alloc::AllocFailed;
use std::fmt;
use thiserror::Error;

/// Why a line wasn't read.
#[derive(Clone, Copy, Debug, PartialEq, Eq, Error)]
pub enum ReadFault {
    /// The source failed, or has more bytes than may be read.
    Input,
    /// Memory was refused.
    OutOfMemory,
}

impl fmt::Display for ReadFault {
    fn fmt<W: fmt::Write>(&self, f: &mut fmt::Formatter<W>) -> fmt::Result {
        f.write_str(match self {
            ReadFault::Input => "the input can't be read",
            ReadFault::OutOfMemory => "out of memory",
        })
    }
}

/// Reads the next line to its end, and keeps its first `most + 1` bytes in place of what was there: so many show
/// whether it has more than `most`. `left` is how many bytes may still be read of the whole input. A read that fails is
/// not tried again.
pub fn read_line<R: ByteSource>(
    reader: &mut R,
    line: &mut Vec<u8>,
    most: usize,
    left: &mut usize,
) -> Result<LineEnd, ReadFault>
    ensures line { IfOk result (λ end. TakesKept end
        (R.remaining reader.old) (R.remaining reader.new) most line.new.items left.old left.new) }
    ensures fault { IfErr result (λ fault. FailsFor R.fails fault
        (R.remaining reader.old) (R.remaining reader.new) (most + 2) line.new.items left.old left.new) }
    ensures few { length line.new.items ≤ most + 2 }
    ensures same { R.place reader.new ≡ R.place reader.old }
{
    line.clear();
    loop {
        match take_byte(reader, left) {
            Ok(Some(b'\n')) => {
                end_piece(line, most);
                return Ok(LineEnd::LineFeed);
            }
            Ok(Some(byte)) => {
                if keep(line, most, byte).is_err() {
                    return Err(ReadFault::OutOfMemory);
                }
            }
            Ok(None) => {
                end_rest(line, most);
                return Ok(LineEnd::EndOfInput);
            }
            Err(fault) => return Err(fault),
        }
    }
}

// Keeps a byte more of a line, unless as many are kept as may be.
fn keep(line: &mut Vec<u8>, most: usize, byte: u8) -> Result<(), AllocFailed<u8>>
    requires { length line.old.items ≤ most + 2 }
    ensures kept { OnOk result ((piece : List ℕ) → line.old.items ≡ take (most + 2) piece →
        line.new.items ≡ take (most + 2) (piece ++ byte ∷ [])) }
    ensures refused { OnErr result ((line.new.items ≡ line.old.items) × (length line.old.items ≤ most + 1)) }
    ensures few { length line.new.items ≤ most + 2 }
{
    if is_full(line, most) {
        return Ok(());
    }
    line.push(byte)
}

// Whether as many bytes are kept as may be: one more than are wanted of a line, since the last may be a CR before an
// LF.
fn is_full(line: &Vec<u8>, most: usize) -> bool
    ensures { result ≡ true ↔ most + 2 ≤ length line.now.items }
{
    line.len().saturating_sub(most) >= 2
}

// Ends a line before an LF. Where as many bytes are kept as may be, the last one is the CR or is not wanted.
fn end_piece(line: &mut Vec<u8>, most: usize)
    requires { length line.old.items ≤ most + 2 }
    ensures kept { (piece : List ℕ) → line.old.items ≡ take (most + 2) piece →
        line.new.items ≡ take (most + 1) (ended_line piece) }
    ensures few { length line.new.items ≤ most + 1 }
{
    if is_full(line, most) {
        line.pop();
    } else {
        drop_return(line);
    }
}

// Ends a line at the input's end.
fn end_rest(line: &mut Vec<u8>, most: usize)
    requires { length line.old.items ≤ most + 2 }
    ensures kept { (rest : List ℕ) → line.old.items ≡ take (most + 2) rest → line.new.items ≡ take (most + 1) rest }
    ensures few { length line.new.items ≤ most + 1 }
{
    if is_full(line, most) {
        line.pop();
    }
}

// Takes one CR off a line's end.
pub(crate) fn drop_return(line: &mut Vec<u8>)
    ensures { line.new.items ≡ ended_line line.old.items }
{
    if line.last() == Some(&b'\r') {
        line.pop();
    }
}

// The next byte, if there is one. It counts against what may still be read.
pub(crate) fn take_byte<R: ByteSource>(
    reader: &mut R,
    left: &mut usize,
) -> Result<Option<u8>, ReadFault>
    ensures byte { IfOk result (λ found.
        TakesByte found (R.remaining reader.old) (R.remaining reader.new) left.old left.new) }
    ensures input { IfErr result (λ fault. fault ≡ Input) }
    ensures fault { OnErr result (GivesNoByte R.fails (R.remaining reader.old) (R.remaining reader.new) left.old left.new) }
    ensures same { R.place reader.new ≡ R.place reader.old }
{
    match reader.next_byte() {
        Ok(None) => Ok(None),
        Ok(Some(byte)) => {
            if *left == 0 {
                return Err(ReadFault::Input);
            }
            *left -= 1;
            Ok(Some(byte))
        }
        Err(_) => Err(ReadFault::Input),
    }
}
