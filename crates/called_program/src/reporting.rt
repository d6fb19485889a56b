//! What the session of a journal comes to, written to the output.

ghost use Rattle.std.specs.Prelude.{◌≡◌, ◌≢◌, ◌⊎◌, ℕ, List, [], IfOk};
ghost use Rattle.std.specs.Io.KnownBytes.{Appends};
ghost use Rattle.script_lines.specs.Writing.{WritesPart};
ghost use Rattle.program.specs.Status.{IsStatus};
ghost use Rattle.operator_lines.specs.Obstacles.{ToldWhy};
ghost use Rattle.called_program.specs.Reported.{IsReport, form_text};

use crate::serving_fault::status_of_source_fault;
use journal_store::JournalFiles;
use kept_sessions::{KeptSessionFault, ReportedJournal, left_of_journal, report_of_journal};
use operator_lines::{Obstacle, status_of_obstacle};
use pbn_report::pbn_text;
use report_texts::{csv_text, html_text};
use script_lines::write_text;
use server_words::{ReportForm, Reporting};
use session_report::Report;
use sqlite::Wary;
use std::alloc::{AllocError, Global};
use std::io::Write;
use std::rt::Files;
use std::thread::Threads;
use usebio_report::usebio_text;

// How many threads find again what the solver found.
const WORKERS: usize = 4;

/// Writes what the session of a journal comes to, in the form that is asked for, and answers the status. It is written once
/// the whole journal was entered again, and the whole text is there.
pub(crate) fn status_of_report<
    R: Files + Threads + JournalFiles + AllocGlobal + Sync,
    W: Write,
    E: Write,
>(rt: &R, reporting: &Reporting<'_>, writer: &mut W, errors: &mut E) -> u8
    ensures statuses { IsStatus result }
    ensures understood { result ≢ 2 }
    ensures silent { result ≡ 0 → Appends (E.contents errors.old) (E.contents errors.new) [] }
    ensures memory { result ≡ 4 → ToldWhy result (E.contents errors.old) (E.contents errors.new) }
    ensures told { result ≡ 0 → (text : List ℕ) × IsReport reporting.now.form text
        × Appends (W.contents writer.old) (W.contents writer.new) text }
    ensures part { result ≡ 3 → Appends (W.contents writer.old) (W.contents writer.new) []
        ⊎ ((text : List ℕ) × IsReport reporting.now.form text
        × WritesPart (W.contents writer.old) (W.contents writer.new) text) }
    ensures untold { result ≢ 0 → result ≢ 3 → Appends (W.contents writer.old) (W.contents writer.new) [] }
{
    match report_text(rt, reporting) {
        Ok(text) => match write_text(writer, text.as_slice()) {
            Ok(()) => 0,
            Err(_) => status_of_obstacle(rt.alloc(), &Obstacle::OutputUnwritten, errors),
        },
        Err(fault) => status_of_source_fault(rt.alloc(), fault, None, errors),
    }
}

fn report_text<R: Files + Threads + JournalFiles + AllocGlobal + Sync>(
    rt: &R,
    reporting: &Reporting<'_>,
) -> Result<Vec<u8>, KeptSessionFault>
    ensures { IfOk result (λ text. IsReport reporting.now.form text.items) }
{
    let ReportedJournal { report, store } = match report_of_journal(
        rt,
        reporting.journal,
        Wary,
        WORKERS,
    ) {
        Ok(reported) => reported,
        Err((fault, _left)) => return Err(fault),
    };
    drop(left_of_journal(store));
    match form_text(rt.alloc(), reporting.form, &report) {
        Ok(text) => Ok(text),
        Err(_) => Err(KeptSessionFault::OutOfMemory),
    }
}

// A report in a form.
fn form_text(alloc: Global, form: ReportForm, report: &Report) -> Result<Vec<u8>, AllocError>
    ensures { IfOk result (λ text. text.items ≡ form_text form report.now) }
{
    match form {
        ReportForm::Csv => csv_text(alloc, report),
        ReportForm::Html => html_text(alloc, report),
        ReportForm::Pbn => pbn_text(alloc, report),
        ReportForm::Usebio => usebio_text(alloc, report),
    }
}
