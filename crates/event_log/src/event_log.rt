//! The log, to which one event after another is added.

ghost use Rattle.std.specs.Prelude.{◌≡◌, ◌≢◌, ◌∷◌, false, true};
ghost use Rattle.std.specs.Io.KnownBytes.{Appends};
ghost use Rattle.script_lines.specs.Writing.{WritesPart};
ghost use Rattle.event_log.specs.Logging.{IsLogged, IsNotLogged, mended};
ghost use Rattle.event_log.specs.declared.event_log.LogOutcome.TheVariants as became;

use crate::event::Event;
use crate::event_line::log_line;
use script_lines::write_text;
use std::alloc::Global;
use std::io::Write;

/// A log, and what became of it so far.
#[derive(Drop)]
pub struct EventLog<W> {
    /// What its lines are written to.
    pub writer: W,
    /// Its last line was cut off.
    pub is_cut: bool,
    /// Somebody was told that it can't be written.
    pub is_told: bool,
}

/// What became of an event.
#[derive(Clone, Copy, Debug, PartialEq, Eq)]
pub enum LogOutcome {
    /// Its line is in the log.
    Written,
    /// It isn't, for the first time: this is to be told.
    FirstUnwritten,
    /// It isn't, and that was told before.
    Unwritten,
}

impl<W: Write + Drop> EventLog<W> {
    /// A log of which nothing is written yet.
    pub fn new(writer: W) -> EventLog<W>
        ensures writer { result.writer ≡ writer }
        ensures whole { result.is_cut ≡ false }
        ensures untold { result.is_told ≡ false }
    {
        EventLog {
            writer,
            is_cut: false,
            is_told: false,
        }
    }

    /// Adds an event's line, which is written at once, where the clock could be read with its time. Where it can't be written,
    /// the log goes on with the next.
    pub fn add(&mut self, alloc: Global, at: Option<u64>, event: &Event<'_>) -> LogOutcome
        ensures written { result ≡ became.Written →
            IsLogged self.old.is_cut at event.now (W.contents self.old.writer) (W.contents self.new.writer)
            × (self.new.is_cut ≡ false) }
        ensures unwritten { result ≢ became.Written →
            IsNotLogged self.old.is_cut at event.now (W.contents self.old.writer) (W.contents self.new.writer) }
        ensures first { result ≡ became.FirstUnwritten → (self.old.is_told ≡ false) × (self.new.is_told ≡ true) }
        ensures again { result ≡ became.Unwritten → self.old.is_told ≡ true }
        ensures told { result ≢ became.FirstUnwritten → self.new.is_told ≡ self.old.is_told }
    {
        let Ok(line) = log_line(alloc, at, event) else {
            return self.not_written();
        };
        match self.write(line.as_slice()) {
            true => LogOutcome::Written,
            false => self.not_written(),
        }
    }

    // Writes a line, behind the end of one that was cut off, and answers whether it is whole.
    fn write(&mut self, line: &[u8]) -> bool
        ensures whole { result ≡ true →
            Appends (W.contents self.old.writer) (W.contents self.new.writer) (mended self.old.is_cut line.now)
            × (self.new.is_cut ≡ false) }
        ensures part { result ≡ false →
            WritesPart (W.contents self.old.writer) (W.contents self.new.writer) (mended self.old.is_cut line.now) }
        ensures told { self.new.is_told ≡ self.old.is_told }
    {
        match self.is_cut {
            false => self.write_line(line),
            true => self.write_behind(line),
        }
    }

    // Writes the end of a line that was cut off, and another.
    fn write_behind(&mut self, line: &[u8]) -> bool
        ensures whole { result ≡ true →
            Appends (W.contents self.old.writer) (W.contents self.new.writer) (10 ∷ line.now)
            × (self.new.is_cut ≡ false) }
        ensures part { result ≡ false →
            WritesPart (W.contents self.old.writer) (W.contents self.new.writer) (10 ∷ line.now) }
        ensures told { self.new.is_told ≡ self.old.is_told }
    {
        match write_text(&mut self.writer, b"\n") {
            Ok(()) => self.write_line(line),
            Err(_) => false,
        }
    }

    // Writes a line.
    fn write_line(&mut self, line: &[u8]) -> bool
        ensures whole { result ≡ true →
            Appends (W.contents self.old.writer) (W.contents self.new.writer) line.now × (self.new.is_cut ≡ false) }
        ensures part { result ≡ false →
            WritesPart (W.contents self.old.writer) (W.contents self.new.writer) line.now }
        ensures told { self.new.is_told ≡ self.old.is_told }
    {
        match write_text(&mut self.writer, line) {
            Ok(()) => {
                self.is_cut = false;
                true
            }
            Err(_) => {
                self.is_cut = true;
                false
            }
        }
    }

    // Notes that an event isn't in the log.
    fn not_written(&mut self) -> LogOutcome
        ensures writer { self.new.writer ≡ self.old.writer }
        ensures never { result ≢ became.Written }
        ensures first { result ≡ became.FirstUnwritten → (self.old.is_told ≡ false) × (self.new.is_told ≡ true) }
        ensures again { result ≡ became.Unwritten → self.old.is_told ≡ true }
        ensures told { result ≢ became.FirstUnwritten → self.new.is_told ≡ self.old.is_told }
    {
        if self.is_told {
            return LogOutcome::Unwritten;
        }
        self.is_told = true;
        LogOutcome::FirstUnwritten
    }
}
