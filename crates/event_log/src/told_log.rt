//! A log, and where it is told that it can't be written.

ghost use Rattle.std.specs.Prelude.{◌≡◌, false};
ghost use Rattle.operator_lines.specs.Telling.{TellsLine};
ghost use Rattle.event_log.specs.Logging.{IsHeard, unlogged_line};

use crate::event::Event;
use crate::event_log::{EventLog, LogOutcome};
use operator_lines::tell;
use std::alloc::Global;
use std::io::Write;

/// A log, and the stream on which it is told that an event isn't in it, once.
#[derive(Drop)]
pub struct ToldLog<W, E> {
    /// The log.
    pub log: EventLog<W>,
    /// The stream.
    pub errors: E,
}

impl<W: Write + Drop, E: Write + Drop> ToldLog<W, E> {
    /// A log of which nothing is written yet, and nothing was told.
    pub fn new(writer: W, errors: E) -> ToldLog<W, E>
        ensures writer { result.log.writer ≡ writer }
        ensures whole { result.log.is_cut ≡ false }
        ensures untold { result.log.is_told ≡ false }
        ensures errors { result.errors ≡ errors }
    {
        ToldLog {
            log: EventLog::new(writer),
            errors,
        }
    }

    /// Adds an event's line, where the clock could be read with its time. Where it can't be written that is told, if it wasn't
    /// before, and the log goes on with the next.
    pub fn add(&mut self, alloc: Global, at: Option<u64>, event: &Event<'_>)
        ensures { IsHeard self.old.log.is_cut at event.now self.old.log.is_told self.new.log.is_told
            (W.contents self.old.log.writer) (W.contents self.new.log.writer)
            (E.contents self.old.errors) (E.contents self.new.errors) }
    {
        match self.log.add(alloc, at, event) {
            LogOutcome::Written | LogOutcome::Unwritten => {}
            LogOutcome::FirstUnwritten => tell_unlogged(&mut self.errors),
        }
    }
}

// Tells that an event isn't in the log.
fn tell_unlogged<E: Write>(errors: &mut E)
    ensures { TellsLine (E.contents errors.old) (E.contents errors.new) unlogged_line }
{
    tell(
        errors,
        "bridge_server: LogUnwritten (an event isn't in the log; this is told once)\n",
    );
}
