//! What texts are written to.

ghost use Rattle.std.specs.Prelude.{◌≡◌, IfErr, OnOk, OnErr, Some};
ghost use Rattle.std.specs.Io.KnownBytes.{Appends};
ghost use Rattle.script_lines.specs.Writing.{WritesPart};
ghost use Rattle.script_lines.specs.declared.sink.SinkFault.TheVariants.{Output, OutOfMemory};

use crate::writing::write_text;
use std::io::Write;

/// Why a text wasn't written, or only a first part of it.
#[derive(Clone, Copy, Debug, PartialEq, Eq)]
pub enum SinkFault {
    /// The writer failed.
    Output,
    /// The texts are kept in memory, and more was refused.
    OutOfMemory,
}

/// What texts are written to: a writer of the system that is lent, which may fail at any time, or bytes in memory, for
/// which memory may be refused.
pub trait TextSink {
    ghost use Rattle.std.specs.Prelude.{ℕ, List, Option};
    ghost use Rattle.script_lines.specs.declared.sink.SinkFault.{SinkFault};

    // The bytes that it holds, where they are known.
    ghost contents: { Self → Option (List ℕ) };

    // What it takes for a text not to be written, by the fault that is told; where that never happens nothing does.
    ghost fails: { SinkFault → Type 0 };

    // Which one it is: a writer that is lent stays the same one.
    ghost place: { Self → ℕ };

    /// Writes a text whole, and passes it on: what is held back would keep its reader waiting, and its fault hidden. A call
    /// that fails isn't tried again.
    fn put_text(&mut self, text: &[u8]) -> Result<(), SinkFault>
        ensures whole { OnOk result (Appends (contents self.old) (contents self.new) text.now) }
        ensures part { OnErr result (WritesPart (contents self.old) (contents self.new) text.now) }
        ensures fault { IfErr result fails }
        ensures same { place self.new ≡ place self.old };
}

impl<W: Write> TextSink for &mut W {
    ghost use Rattle.std.specs.Prelude.{◌≡◌};
    ghost use Rattle.script_lines.specs.declared.sink.SinkFault.TheVariants.{Output};

    ghost contents = { λ writer. W.contents writer.now };

    ghost fails = { λ fault. fault ≡ Output };

    ghost place = { λ writer. writer.ghost_name };

    fn put_text(&mut self, text: &[u8]) -> Result<(), SinkFault> {
        match write_text(&mut **self, text) {
            Ok(()) => match Write::flush(&mut **self) {
                Ok(()) => Ok(()),
                Err(_) => Err(SinkFault::Output),
            },
            Err(_) => Err(SinkFault::Output),
        }
    }
}

impl TextSink for Vec<u8> {
    ghost use Rattle.std.specs.Prelude.{◌≡◌, Some};
    ghost use Rattle.script_lines.specs.declared.sink.SinkFault.TheVariants.{OutOfMemory};

    ghost contents = { λ bytes. Some bytes.items };

    ghost fails = { λ fault. fault ≡ OutOfMemory };

    ghost place = { λ _. 0 };

    fn put_text(&mut self, text: &[u8]) -> Result<(), SinkFault> {
        match self.extend_from_slice(text) {
            Ok(()) => Ok(()),
            Err(_) => Err(SinkFault::OutOfMemory),
        }
    }
}
