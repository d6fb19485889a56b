//! The line that responds to a message.

ghost use Rattle.std.specs.Prelude.{◌≡◌, ◌++◌, ◌∷◌, [], ℕ, List, Ok, IfOk, IfErr, OnOk, OnErr, string_bytes};
ghost use Rattle.std.specs.Io.KnownBytes.{Appends};
ghost use Rattle.script_lines.specs.Writing.{WritesPart};
ghost use Rattle.json_fields.specs.declared.request_fault.RequestFault.TheVariants.{OutOfMemory};
ghost use Rattle.wire.specs.Request.{script_meaning, HasFew};
ghost use Rattle.program.specs.Standing.{line_of};
ghost use Rattle.program.specs.Writes.{Responds};

use json_fields::RequestFault;
use request_answers::{AnswerFault, answer_request};
use script_lines::{SinkFault, TextSink};
use session_keeper::{Keeper, PlainKeeper};
use std::alloc::Global;
use wire::{ScriptRequest, fault_line, read_script_request};

/// Responds to a message: its effect joins the session, and the line that responds is written.
pub(crate) fn respond<W: TextSink>(
    alloc: Global,
    keeper: &mut PlainKeeper,
    line: &[u8],
    writer: &mut W,
) -> Result<(), SinkFault>
    ensures response { (text : List ℕ) × Responds keeper.old.opening keeper.old.journal line.now keeper.new.journal text
        × OnOk result (Appends (W.contents writer.old) (W.contents writer.new) text)
        × OnErr result (WritesPart (W.contents writer.old) (W.contents writer.new) text) }
    ensures fault { IfErr result W.fails }
    ensures same { W.place writer.new ≡ W.place writer.old }
    ensures opening { keeper.new.opening ≡ keeper.old.opening }
{
    match response_to(alloc, keeper, line) {
        Ok(text) => writer.put_text(text.as_bytes()),
        Err(fault) => writer.put_text(fault_line(fault).as_bytes()),
    }
}

// The line that responds to a message, or the fault whose line does.
#[tactic(auto, using(crate::proofs::ResponseLemmas::responds_fault))]
fn response_to(alloc: Global, keeper: &mut PlainKeeper, line: &[u8]) -> Result<String, RequestFault>
    ensures response { Responds keeper.old.opening keeper.old.journal line.now keeper.new.journal (line_of string_bytes result) }
    ensures opening { keeper.new.opening ≡ keeper.old.opening }
{
    match read_script_request(alloc, line, keeper.edition()) {
        Ok(said) => response_to_request(alloc, keeper, &said),
        Err(fault) => Err(fault),
    }
}

// The line that responds to what was read.
fn response_to_request(
    alloc: Global,
    keeper: &mut PlainKeeper,
    said: &ScriptRequest,
) -> Result<String, RequestFault>
    requires { HasFew said.now.request }
    ensures response { (line : List ℕ) → script_meaning keeper.old.opening.public.edition line ≡ Ok said.now →
        Responds keeper.old.opening keeper.old.journal line keeper.new.journal (line_of string_bytes result) }
    ensures opening { keeper.new.opening ≡ keeper.old.opening }
{
    match answer_request(&(), alloc, keeper, said.user, &said.request) {
        Ok(text) => with_line_feed(text),
        Err(AnswerFault::OutOfMemory) => Err(RequestFault::OutOfMemory),
        // A session that is kept alone can be entered at each version, and each of its batches is kept.
        Err(AnswerFault::NoEntry | AnswerFault::NotKept | AnswerFault::Unsure) => unreachable!(),
    }
}

// The text with the LF that ends its line.
fn with_line_feed(text: String) -> Result<String, RequestFault>
    ensures line { IfOk result (λ line. string_bytes line ≡ string_bytes text ++ 10 ∷ []) }
    ensures err { IfErr result (λ fault. fault ≡ OutOfMemory) }
{
    let mut line = text;
    match line.push('\n') {
        Ok(()) => Ok(line),
        Err(_) => Err(RequestFault::OutOfMemory),
    }
}
