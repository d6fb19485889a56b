//! A script, from its first line to its last.

ghost use Rattle.std.specs.Prelude.{◌≡◌, ◌+◌, ◌≤◌, [], List, ℕ, Option, Some, IfSome, IfOk, IfErr, OnOk};
ghost use Rattle.program.specs.FirstLine.{Opens, BeginsNone, fault_of_unopened};
ghost use Rattle.program.specs.Writes.{IsDone, EndsOver};
ghost use Rattle.program.specs.Standing.{StandsAtLine, StandsAtEnd, StandsAfter, line_feeds, fault_of_read, fault_of_write};

use crate::fault::Fault;
use crate::response::respond;
use opened_session::{OpenedSession, OpeningFault, open_session};
use script_lines::{
    ByteSource, LineEnd, ReadFault, SinkFault, TextSink, read_line, read_short_line,
};
use session_keeper::PlainKeeper;
use session_object::{MOST_BYTES, SessionFault};
use std::alloc::Global;
use wire::MOST_MESSAGE_BYTES;

// How many bytes a script has at most.
const SCRIPT_LIMIT: usize = 1_073_741_824;

/// Reads a script and responds to each message with a line, which is written before the next line is read. The first
/// line opens the session. Over bytes in memory no reading and no writing fails (`laws::answered_whole_over_memory`).
pub fn run_script<R: ByteSource, W: TextSink>(
    alloc: Global,
    reader: &mut R,
    writer: &mut W,
) -> Result<(), Fault>
    ensures done { OnOk result (IfSome (R.remaining reader.old) (λ input.
        IsDone input (R.remaining reader.new) (W.contents writer.old) (W.contents writer.new))) }
    ensures ended { IfErr result (λ fault. IfSome (R.remaining reader.old) (λ input.
        EndsOver R.fails W.fails fault input (R.remaining reader.new) (W.contents writer.old) (W.contents writer.new))) }
    ensures source { R.place reader.new ≡ R.place reader.old }
    ensures sink { W.place writer.new ≡ W.place writer.old }
{
    match ScriptRun::open(alloc, reader) {
        Ok(mut run) => run.respond_to_rest(reader, writer),
        Err(fault) => Err(fault),
    }
}

// What a script's run keeps from line to line.
#[derive(Drop)]
struct ScriptRun {
    alloc: Global,
    keeper: PlainKeeper,
    // What ended the first line.
    first: LineEnd,
    line: Vec<u8>,
    // How many bytes may still be read.
    left: usize,
}

impl ScriptRun {
    // Opens the session of the first line.
    fn open<R: ByteSource>(alloc: Global, reader: &mut R) -> Result<ScriptRun, Fault>
        ensures opened { (writer : Option (List ℕ)) → IfOk result (λ run.
            StandsAfter run.first (R.remaining reader.old) writer (R.remaining reader.new) writer run.keeper run.left) }
        ensures ended { (writer : Option (List ℕ)) → IfErr result (λ fault.
            IfSome (R.remaining reader.old) (λ input.
            EndsOver R.fails (λ _. ⊥) fault input (R.remaining reader.new) writer writer)) }
        ensures source { R.place reader.new ≡ R.place reader.old }
    {
        let mut line = Vec::new(alloc);
        let mut left = SCRIPT_LIMIT;
        match read_short_line(reader, &mut line, MOST_BYTES, &mut left) {
            Ok(Some(first)) => match keeper_of(alloc, line.as_slice()) {
                Ok(keeper) => Ok(ScriptRun {
                    alloc,
                    keeper,
                    first,
                    line,
                    left,
                }),
                Err(fault) => Err(fault),
            },
            Ok(None) => Err(Fault::Session(SessionFault::TooLong)),
            Err(fault) => Err(fault_of_read(fault)),
        }
    }

    // Responds to the lines that come after the first.
    fn respond_to_rest<R: ByteSource, W: TextSink>(
        &mut self,
        reader: &mut R,
        writer: &mut W,
    ) -> Result<(), Fault>
        ensures done { (input before : Option (List ℕ)) →
            StandsAfter self.old.first input before
            (R.remaining reader.old) (W.contents writer.old) self.old.keeper self.old.left →
            OnOk result
            (StandsAtEnd input before (R.remaining reader.new) (W.contents writer.new) self.new.keeper self.new.left) }
        ensures ends { (input : List ℕ) (before : Option (List ℕ)) →
            StandsAfter self.old.first (Some input) before
            (R.remaining reader.old) (W.contents writer.old) self.old.keeper self.old.left →
            IfErr result (λ fault. EndsOver R.fails W.fails fault input (R.remaining reader.new) before (W.contents writer.new)) }
        ensures source { R.place reader.new ≡ R.place reader.old }
        ensures sink { W.place writer.new ≡ W.place writer.old }
    {
        let mut last = self.first;
        loop {
            match last {
                LineEnd::EndOfInput => return Ok(()),
                LineEnd::LineFeed => match self.respond_next(reader, writer) {
                    Ok(next) => last = next,
                    Err(fault) => return Err(fault),
                },
            }
        }
    }

    // Reads the next line, and responds to it unless it is empty. Of one that is too long for a message no more is kept
    // than shows this.
    fn respond_next<R: ByteSource, W: TextSink>(
        &mut self,
        reader: &mut R,
        writer: &mut W,
    ) -> Result<LineEnd, Fault>
        ensures goes_on { (input before : Option (List ℕ)) →
            StandsAtLine input before (R.remaining reader.old) (W.contents writer.old) self.old.keeper self.old.left →
            IfOk result (λ end. StandsAfter end input before
            (R.remaining reader.new) (W.contents writer.new) self.new.keeper self.new.left) }
        ensures ends { (input : List ℕ) (before : Option (List ℕ)) →
            StandsAtLine (Some input) before
            (R.remaining reader.old) (W.contents writer.old) self.old.keeper self.old.left →
            IfErr result (λ fault. EndsOver R.fails W.fails fault input (R.remaining reader.new) before (W.contents writer.new)) }
        ensures fewer { IfOk result (λ end. self.new.left + line_feeds end ≤ self.old.left) }
        ensures source { R.place reader.new ≡ R.place reader.old }
        ensures sink { W.place writer.new ≡ W.place writer.old }
    {
        match read_line(reader, &mut self.line, MOST_MESSAGE_BYTES, &mut self.left) {
            Ok(end) => {
                if self.line.is_empty() {
                    return Ok(end);
                }
                match respond(self.alloc, &mut self.keeper, self.line.as_slice(), writer) {
                    Ok(()) => Ok(end),
                    Err(fault) => Err(fault_of_write(fault)),
                }
            }
            Err(fault) => Err(fault_of_read(fault)),
        }
    }
}

// The keeper of the session that a script's first line opens. In a script nothing is solved, so the object's budget has
// no use.
#[tactic(auto, using(crate::proofs::FirstLineLemmas::begins_none))]
fn keeper_of(alloc: Global, line: &[u8]) -> Result<PlainKeeper, Fault>
    ensures opens { IfOk result (λ keeper. Opens line.now keeper.opening) }
    ensures journal { IfOk result (λ keeper. keeper.journal ≡ []) }
    ensures none { IfErr result (λ fault. BeginsNone fault line.now) }
{
    match open_session(alloc, line, None) {
        Ok(OpenedSession { book, .. }) => match PlainKeeper::new(alloc, book) {
            Ok(keeper) => Ok(keeper),
            Err(_) => Err(Fault::OutOfMemory),
        },
        Err(fault) => Err(fault_of_unopened(fault)),
    }
}

// The fault of a script whose next line wasn't read.
fn fault_of_read(fault: ReadFault) -> Fault
    ensures { result ≡ fault_of_read fault }
{
    match fault {
        ReadFault::Input => Fault::Input,
        ReadFault::OutOfMemory => Fault::OutOfMemory,
    }
}

// The fault of a script whose response wasn't written whole.
fn fault_of_write(fault: SinkFault) -> Fault
    ensures { result ≡ fault_of_write fault }
{
    match fault {
        SinkFault::Output => Fault::Output,
        SinkFault::OutOfMemory => Fault::OutOfMemory,
    }
}

// The fault of a script whose first line opens no session.
fn fault_of_unopened(fault: OpeningFault) -> Fault
    ensures { result ≡ fault_of_unopened fault }
{
    match fault {
        OpeningFault::Session(fault) => Fault::Session(fault),
        OpeningFault::Opening(cause) => Fault::Opening(cause),
    }
}
