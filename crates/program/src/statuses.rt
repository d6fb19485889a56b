//! The statuses with which the program ends after a script, or where no session is opened.

ghost use Rattle.std.specs.Prelude.{◌≡◌, ◌≢◌, ◌⊎◌, [], IfSome};
ghost use Rattle.std.specs.Io.KnownBytes.{Appends};
ghost use Rattle.program.specs.declared.fault.Fault.TheVariants.{Input, Output};
ghost use Rattle.program.specs.declared.fault.Fault.{Fault};
ghost use Rattle.program.specs.Status.{IsStatus, status_of};
ghost use Rattle.operator_lines.specs.Obstacles.{ToldWhy};
ghost use Rattle.program.specs.Writes.{IsDone, EndsWith};

use crate::fault::Fault;
use crate::script::run_script;
use operator_lines::{MemoryFor, Obstacle, status_of_obstacle};
use session_object::SessionFault;
use session_opening::OpeningRefusal;
use std::alloc::Global;
use std::io::{Read, Write};

/// Runs a script and answers the status after it: 0 where it was answered whole, 1 where its first line opens no
/// session, 3 where something couldn't be read or written, 4 where there was no memory. What isn't 0 is told on the place
/// for errors.
pub fn status_of_script<I: Read, W: Write, E: Write>(
    alloc: Global,
    reader: &mut I,
    writer: &mut W,
    errors: &mut E,
) -> u8
    ensures statuses { IsStatus result }
    ensures silent { result ≡ 0 → Appends (E.contents errors.old) (E.contents errors.new) [] }
    ensures why { (result ≡ 3) ⊎ (result ≡ 4) → ToldWhy result (E.contents errors.old) (E.contents errors.new) }
    ensures understood { result ≢ 2 }
    ensures refused { result ≡ 1 →
        IfSome (I.remaining reader.old) (λ input. (fault : Fault)
        × (status_of fault ≡ 1)
        × EndsWith fault input (I.remaining reader.new) (W.contents writer.old) (W.contents writer.new)) }
    ensures answered { result ≡ 0 →
        IfSome (I.remaining reader.old) (λ input.
        IsDone input (I.remaining reader.new) (W.contents writer.old) (W.contents writer.new)) }
    ensures failed { result ≡ 3 →
        IfSome (I.remaining reader.old) (λ input.
        EndsWith Input input (I.remaining reader.new) (W.contents writer.old) (W.contents writer.new)
        ⊎ EndsWith Output input (I.remaining reader.new) (W.contents writer.old) (W.contents writer.new)) }
    ensures no_memory { result ≡ 4 →
        IfSome (I.remaining reader.old) (λ input. (fault : Fault)
        × (status_of fault ≡ 4)
        × EndsWith fault input (I.remaining reader.new) (W.contents writer.old) (W.contents writer.new)) }
{
    let mut source = reader;
    let mut sink = writer;
    let ended = run_script(alloc, &mut source, &mut sink);
    // No effect when it runs: here the proof learns what the reader and the writer hold.
    let _ = &*source;
    let _ = &*sink;
    match ended {
        Ok(()) => 0,
        Err(fault) => status_of_fault(alloc, fault, errors),
    }
}

/// The status after a fault, which is told.
pub fn status_of_fault<E: Write>(alloc: Global, fault: Fault, errors: &mut E) -> u8
    ensures status { result ≡ status_of fault }
    ensures why { (result ≡ 3) ⊎ (result ≡ 4) → ToldWhy result (E.contents errors.old) (E.contents errors.new) }
{
    match fault {
        Fault::OutOfMemory
        | Fault::Session(SessionFault::OutOfMemory)
        | Fault::Opening(OpeningRefusal::OutOfMemory) => {
            status_of_obstacle(alloc, &Obstacle::OutOfMemory(MemoryFor::Script), errors)
        }
        Fault::Session(_) | Fault::Opening(_) => {
            // Where it can't be written, the status still tells.
            let _unwritten = writeln!(errors, "bridge_server: {fault}");
            1
        }
        Fault::Input => status_of_obstacle(alloc, &Obstacle::ScriptUnread, errors),
        Fault::Output => status_of_obstacle(alloc, &Obstacle::OutputUnwritten, errors),
    }
}
