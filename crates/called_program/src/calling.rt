//! The program as it is called: with words, and with streams to read and to write.

ghost use Rattle.std.specs.Prelude.{◌≡◌, ◌≢◌, ◌⊎◌, ℕ, List, [], IfSome, map, string_bytes};
ghost use Rattle.std.specs.Borrow.{Bor};
ghost use Rattle.std.specs.Io.KnownBytes.{Consumes, Appends};
ghost use Rattle.program.specs.declared.fault.Fault.{Fault};
ghost use Rattle.program.specs.declared.fault.Fault.TheVariants.{Input, Output};
ghost use Rattle.program.specs.Writes.{IsDone, EndsWith};
ghost use Rattle.server_words.specs.Words.{AsksFor, IsMistaken};
ghost use Rattle.server_words.specs.declared.words.Words.TheVariants.{Script, Serve, Audit, Copy, Check, Prepare, Report};
ghost use Rattle.server_words.specs.declared.words.Serving.{Serving};
ghost use Rattle.server_words.specs.declared.words.JournalCopy.{JournalCopy};
ghost use Rattle.server_words.specs.declared.words.Preparing.{Preparing};
ghost use Rattle.server_words.specs.declared.words.Reporting.{Reporting};
ghost use Rattle.server_words.specs.declared.words.Checking.{Checking};
ghost use Rattle.program.specs.Status.{IsStatus, status_of};
ghost use Rattle.script_lines.specs.Writing.{WritesPart};
ghost use Rattle.kept_sessions.specs.Audited.{TellsJournal};
ghost use Rattle.called_program.specs.Reported.{IsReport};
ghost use Rattle.called_program.specs.Said.{IsSaidOnErrors, IsToldServed};
ghost use Rattle.operator_lines.specs.Obstacles.{ToldWhy};
ghost use Rattle.clap.specs.Words.{kind_of};
ghost use Rattle.clap.specs.declared.error.kind.ErrorKind.TheVariants as kind;

use crate::auditing::status_of_audit;
use crate::checking::status_of_check;
use crate::copying::status_of_copy;
use crate::reporting::status_of_report;
use crate::serving::status_of_serving;
use crate::serving_fault::status_of_no_memory;
use crate::session_folder::status_of_preparing;
use clap::Error;
use event_log::LogFiles;
use journal_store::JournalFiles;
use operator_lines::{MemoryFor, Obstacle, status_of_obstacle};
use program::status_of_script;
use server_words::{Words, called_with, read_words, status_of_words};
use std::alloc::Global;
use std::io::{self, BufReader, Read, Write};
use std::net::Net;
use std::random::RandomSource;
use std::rt::{Files, Runtime};
use std::sync::Wait;
use std::thread::Threads;
use std::time::Clock;

/// Runs the program with these words, its name first, and answers the status with which it ends.
pub fn run_words<
    R: Files
        + Net
        + Clock
        + Wait
        + Threads
        + JournalFiles
        + LogFiles
        + RandomSource
        + AllocGlobal
        + Sync,
    I: Read,
    W: Write,
    E: Write,
>(rt: &R, words: &[String], reader: &mut I, writer: &mut W, errors: &mut E) -> u8
where
    R::Listener: Sync,
    R::Stream: Send,
    ensures statuses { IsStatus result }
    ensures unread { ¬ AsksFor (map string_bytes words.now) Script →
        Consumes (I.remaining reader.old) (I.remaining reader.new) [] }
    ensures mistaken { IsMistaken (map string_bytes words.now) →
        ((result ≡ 2) ⊎ (result ≡ 4)) × Appends (W.contents writer.old) (W.contents writer.new) [] }
    ensures unwritten { result ≡ 2 → Appends (W.contents writer.old) (W.contents writer.new) [] }
    ensures silent { result ≢ 1 → result ≢ 2 →
        IsSaidOnErrors (map string_bytes words.now) result (E.contents errors.old) (E.contents errors.new) }
    ensures understood { AsksFor (map string_bytes words.now) Script → result ≢ 2 }
    ensures refused { AsksFor (map string_bytes words.now) Script → result ≡ 1 →
        IfSome (I.remaining reader.old) (λ input. (fault : Fault)
        × (status_of fault ≡ 1)
        × EndsWith fault input (I.remaining reader.new) (W.contents writer.old) (W.contents writer.new)) }
    ensures answered { AsksFor (map string_bytes words.now) Script → result ≡ 0 →
        IfSome (I.remaining reader.old) (λ input.
        IsDone input (I.remaining reader.new) (W.contents writer.old) (W.contents writer.new)) }
    ensures failed { AsksFor (map string_bytes words.now) Script → result ≡ 3 →
        IfSome (I.remaining reader.old) (λ input.
        EndsWith Input input (I.remaining reader.new) (W.contents writer.old) (W.contents writer.new)
        ⊎ EndsWith Output input (I.remaining reader.new) (W.contents writer.old) (W.contents writer.new)) }
    ensures no_memory { AsksFor (map string_bytes words.now) Script → result ≡ 4 →
        (Consumes (I.remaining reader.old) (I.remaining reader.new) []
        × Appends (W.contents writer.old) (W.contents writer.new) [])
        ⊎ IfSome (I.remaining reader.old) (λ input. (fault : Fault)
        × (status_of fault ≡ 4)
        × EndsWith fault input (I.remaining reader.new) (W.contents writer.old) (W.contents writer.new)) }
    ensures served { (serving : Serving) → AsksFor (map string_bytes words.now) (Serve serving) →
        Appends (W.contents writer.old) (W.contents writer.new) [] }
    ensures told { (serving : Serving) → AsksFor (map string_bytes words.now) (Serve serving) → result ≡ 0 →
        IsToldServed serving.source (E.contents errors.old) (E.contents errors.new) }
    ensures audited { (path : Bor (List ℕ)) → AsksFor (map string_bytes words.now) (Audit path) → result ≡ 0 →
        (text : List ℕ) × TellsJournal text × Appends (W.contents writer.old) (W.contents writer.new) text }
    ensures unaudited { (path : Bor (List ℕ)) → AsksFor (map string_bytes words.now) (Audit path) → result ≢ 0 →
        Appends (W.contents writer.old) (W.contents writer.new) []
        ⊎ ((text : List ℕ) × TellsJournal text × WritesPart (W.contents writer.old) (W.contents writer.new) text) }
    ensures reported { (reporting : Reporting) → AsksFor (map string_bytes words.now) (Report reporting) → result ≡ 0 →
        (text : List ℕ) × IsReport reporting.form text × Appends (W.contents writer.old) (W.contents writer.new) text }
    ensures unreported { (reporting : Reporting) → AsksFor (map string_bytes words.now) (Report reporting) → result ≢ 0 →
        Appends (W.contents writer.old) (W.contents writer.new) []
        ⊎ ((text : List ℕ) × IsReport reporting.form text
        × WritesPart (W.contents writer.old) (W.contents writer.new) text) }
    ensures copied { (copy : JournalCopy) → AsksFor (map string_bytes words.now) (Copy copy) →
        Appends (W.contents writer.old) (W.contents writer.new) [] }
    ensures checked { (checking : Checking) → AsksFor (map string_bytes words.now) (Check checking) → result ≡ 1 →
        Appends (E.contents errors.old) (E.contents errors.new) [] }
    ensures prepared { (preparing : Preparing) → AsksFor (map string_bytes words.now) (Prepare preparing) →
        Appends (W.contents writer.old) (W.contents writer.new) [] }
{
    match read_words(rt.alloc(), words) {
        Ok(Words::Script) => status_of_script(rt.alloc(), reader, writer, errors),
        Ok(Words::Serve(serving)) => status_of_serving(rt, &serving, errors),
        Ok(Words::Audit(path)) => status_of_audit(rt, path, writer, errors),
        Ok(Words::Copy(copy)) => status_of_copy(rt, &copy, errors),
        Ok(Words::Check(checking)) => status_of_check(rt, &checking, writer, errors),
        Ok(Words::Prepare(preparing)) => status_of_preparing(rt, &preparing, errors),
        Ok(Words::Report(reporting)) => status_of_report(rt, &reporting, writer, errors),
        Err(error) => status_of_untaken(rt.alloc(), &error, writer, errors),
    }
}

// The status after words by which nothing is run. What can't be told of them is said.
fn status_of_untaken<W: Write, E: Write>(
    alloc: Global,
    error: &Error,
    writer: &mut W,
    errors: &mut E,
) -> u8
    ensures statuses { IsStatus result }
    ensures unwritten { result ≡ 2 → Appends (W.contents writer.old) (W.contents writer.new) [] }
    ensures silent { result ≡ 0 → Appends (E.contents errors.old) (E.contents errors.new) [] }
    ensures why { (result ≡ 3) ⊎ (result ≡ 4) → ToldWhy result (E.contents errors.old) (E.contents errors.new) }
    ensures memory { kind_of error.now ≡ kind.OutOfMemory → result ≡ 4 }
    ensures help { kind_of error.now ≡ kind.DisplayHelp → result ≢ 2 }
    ensures version { kind_of error.now ≡ kind.DisplayVersion → result ≢ 2 }
    ensures mistaken { kind_of error.now ≢ kind.DisplayHelp → kind_of error.now ≢ kind.DisplayVersion →
        ((result ≡ 2) ⊎ (result ≡ 4)) × Appends (W.contents writer.old) (W.contents writer.new) [] }
{
    match status_of_words(alloc, error, writer, errors) {
        3 => status_of_obstacle(alloc, &Obstacle::OutputUnwritten, errors),
        4 => status_of_no_memory(alloc, MemoryFor::Words, errors),
        status => status,
    }
}

/// Hands over the words that the program was called with, and its standard streams but the one for errors.
pub fn run_program<
    R: Runtime + Net + Wait + Threads + JournalFiles + LogFiles + RandomSource + AllocGlobal + Sync,
    E: Write,
>(rt: &R, errors: &mut E) -> u8
where
    R::Listener: Sync,
    R::Stream: Send,
    ensures { IsStatus result }
{
    let Ok(words) = called_with(rt) else {
        return status_of_no_memory(rt.alloc(), MemoryFor::Words, errors);
    };
    let Ok(mut reader) = BufReader::new(rt.alloc(), rt.reader()) else {
        return status_of_no_memory(rt.alloc(), MemoryFor::Script, errors);
    };
    run_words(
        rt,
        words.as_slice(),
        &mut reader,
        &mut io::writer(rt),
        errors,
    )
}
