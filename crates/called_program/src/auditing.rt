//! The audit of a journal, written to the output.

ghost use Rattle.std.specs.Prelude.{◌≡◌, ◌≢◌, ◌⊎◌, ℕ, List, [], string_bytes, IfOk};
ghost use Rattle.std.specs.Io.KnownBytes.{Appends};
ghost use Rattle.script_lines.specs.Writing.{WritesPart};
ghost use Rattle.program.specs.Status.{IsStatus};
ghost use Rattle.kept_sessions.specs.Audited.{TellsJournal};
ghost use Rattle.operator_lines.specs.Obstacles.{ToldWhy};

use crate::serving_fault::status_of_source_fault;
use journal_store::JournalFiles;
use kept_sessions::{KeptSessionFault, ToldJournal, audit_of_journal, left_of_journal};
use operator_lines::{Obstacle, status_of_obstacle};
use script_lines::write_text;
use sqlite::Wary;
use std::io::Write;
use std::rt::Files;
use std::thread::Threads;

// How many threads find again what the solver found.
const WORKERS: usize = 4;

/// Writes the audit of the journal at a path, a line for each entry, and answers the status. It is written once the whole
/// journal was entered again.
pub(crate) fn status_of_audit<
    R: Files + Threads + JournalFiles + AllocGlobal + Sync,
    W: Write,
    E: Write,
>(rt: &R, path: &str, writer: &mut W, errors: &mut E) -> u8
    ensures statuses { IsStatus result }
    ensures understood { result ≢ 2 }
    ensures silent { result ≡ 0 → Appends (E.contents errors.old) (E.contents errors.new) [] }
    ensures memory { result ≡ 4 → ToldWhy result (E.contents errors.old) (E.contents errors.new) }
    ensures told { result ≡ 0 → (text : List ℕ) × TellsJournal text
        × Appends (W.contents writer.old) (W.contents writer.new) text }
    ensures part { result ≡ 3 → Appends (W.contents writer.old) (W.contents writer.new) []
        ⊎ ((text : List ℕ) × TellsJournal text × WritesPart (W.contents writer.old) (W.contents writer.new) text) }
    ensures untold { result ≢ 0 → result ≢ 3 → Appends (W.contents writer.old) (W.contents writer.new) [] }
{
    match audit_text(rt, path) {
        Ok(audit) => match write_text(writer, audit.as_bytes()) {
            Ok(()) => 0,
            Err(_) => status_of_obstacle(rt.alloc(), &Obstacle::OutputUnwritten, errors),
        },
        Err(fault) => status_of_source_fault(rt.alloc(), fault, None, errors),
    }
}

// The audit of the journal at a path, which is let go.
fn audit_text<R: Files + Threads + JournalFiles + AllocGlobal + Sync>(
    rt: &R,
    path: &str,
) -> Result<String, KeptSessionFault>
    ensures { IfOk result (λ audit. TellsJournal (string_bytes audit)) }
{
    let ToldJournal { audit, store } = match audit_of_journal(rt, path, Wary, WORKERS) {
        Ok(told) => told,
        Err((fault, _left)) => return Err(fault),
    };
    drop(left_of_journal(store));
    Ok(audit)
}
