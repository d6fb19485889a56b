//! What bytes are read from.

ghost use Rattle.std.specs.Prelude.{◌≡◌, IfOk, OnErr, Some, ⊤};
ghost use Rattle.std.specs.Io.KnownBytes.{Keeps};
ghost use Rattle.script_lines.specs.Source.{GivesByte};

use std::io::Read;

/// A byte couldn't be read.
#[derive(Clone, Copy, Debug, PartialEq, Eq)]
pub struct SourceFault;

/// What bytes are read from, one by one: a reader of the system that is lent, which may fail at any time, or bytes in
/// memory, which never do.
pub trait ByteSource {
    ghost use Rattle.std.specs.Prelude.{ℕ, List, Option};

    // The bytes that are left to read, where they are known.
    ghost remaining: { Self → Option (List ℕ) };

    // What it takes for a reading to fail; where that never happens nothing does.
    ghost fails: { Type 0 };

    // Which one it is: a reader that is lent stays the same one.
    ghost place: { Self → ℕ };

    /// The next byte, if there is one. A call that fails, be it by an interruption, isn't tried again.
    fn next_byte(&mut self) -> Result<Option<u8>, SourceFault>
        ensures byte { IfOk result (λ found. GivesByte found (remaining self.old) (remaining self.new)) }
        ensures fault { OnErr result (fails × Keeps (remaining self.old) (remaining self.new)) }
        ensures same { place self.new ≡ place self.old };
}

impl<R: Read> ByteSource for &mut R {
    ghost use Rattle.std.specs.Prelude.{⊤};

    ghost remaining = { λ reader. R.remaining reader.now };

    ghost fails = { ⊤ };

    ghost place = { λ reader. reader.ghost_name };

    fn next_byte(&mut self) -> Result<Option<u8>, SourceFault> {
        let mut one = [0u8; 1];
        match Read::read(&mut **self, &mut one) {
            Ok(0) => Ok(None),
            Ok(_) => Ok(Some(one[0])),
            Err(_) => Err(SourceFault),
        }
    }
}

impl ByteSource for &[u8] {
    ghost use Rattle.std.specs.Prelude.{Some};

    ghost remaining = { λ bytes. Some bytes.now };

    ghost fails = { ⊥ };

    ghost place = { λ _. 0 };

    fn next_byte(&mut self) -> Result<Option<u8>, SourceFault> {
        let all: &[u8] = *self;
        match all.split_first() {
            Some((byte, rest)) => {
                *self = rest;
                Ok(Some(*byte))
            }
            None => Ok(None),
        }
    }
}
