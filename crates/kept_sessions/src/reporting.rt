//! What the session of a journal comes to, told where no server has it.

ghost use Rattle.std.specs.Prelude.{◌≡◌, ◌≤◌, ◌++◌, ◌∷◌, [], length, IfOk, IfErr, OnOk};
ghost use Rattle.sqlite.specs.Files.{file_state};
ghost use Rattle.sqlite.specs.WalFiles.{image_at};
ghost use Rattle.history.specs.Prefixes.{entries_of};
ghost use Rattle.session_book.specs.Journal.{IsAccepted, replay, state_of};
ghost use Rattle.movement.specs.Movement.{most_boards};
ghost use Rattle.session_report.specs.Report.{AreReported, report_of};
ghost use Rattle.kept_entries.specs.KeptRows.{lists_in};
ghost use Rattle.kept_sessions.specs.Audited.{WhyNotTold};
ghost use Rattle.kept_sessions.specs.Faults.{AreCleanlyLeft, WhyJournalNotTold};
ghost use Rattle.kept_sessions.specs.declared.source_fault.KeptSessionFault.TheVariants.{OutOfMemory};
ghost use Rattle.kept_sessions.specs.Reported.{IsReportOfJournal, IsReportOfSession};

use crate::auditing::fault_of;
use crate::journal_session::{KeptSession, kept_texts, with_journal};
use crate::left_files::{left_of_found, left_of_journal};
use crate::memberships::memberships_of_texts;
use crate::source_fault::KeptSessionFault;
use crate::texts_session::session_of_texts;
use journal_store::JournalFiles;
use row_journal::{OpenedJournal, RowJournal};
use session_book::Book;
use session_commands::Entry;
use session_report::{Membership, Report, report_of};
use sqlite::{Alter, FileFrom, FileStore, Leftover, Start};
use std::alloc::Global;
use std::rt::Files;
use std::thread::Threads;

/// A journal of which a report was made.
#[derive(Drop)]
pub struct ReportedJournal<S: Alter> {
    /// What its session comes to.
    pub report: Report,
    /// The journal, as it was opened.
    pub store: RowJournal<S>,
}

/// What the session of the journal at a path comes to, with the numbers of members that its session object has. What the
/// solver found is found again by so many workers. A refusal comes with what is left of the journal's files, once they were
/// opened.
pub fn report_of_journal<R: Files + Threads + JournalFiles + AllocGlobal + Sync, S: Start>(
    rt: &R,
    path: &str,
    start: S,
    workers: usize,
) -> Result<
    ReportedJournal<FileStore<FileFrom<S>>>,
    (KeptSessionFault, Option<Leftover<FileFrom<S>>>),
>
    ensures session { IfOk result (λ reported. IsReportOfSession reported.report) }
    ensures kept { IfOk result (λ reported.
        IsReportOfJournal (image_at S.Start) reported.report (file_state reported.store.conn)) }
    ensures why { IfErr result (λ e. AreCleanlyLeft e.1 → WhyJournalNotTold (image_at S.Start) e.1 e.0) }
{
    let (texts, found) = match kept_texts(rt, path, start) {
        Ok(kept) => kept,
        Err(refused) => return Err(refused),
    };
    let object = texts.object.as_bytes();
    let boards = texts.boards.as_slice();
    let session = match session_of_texts(rt.alloc(), object, boards) {
        Ok(session) => session,
        Err(fault) => return Err((fault, Some(left_of_found(found)))),
    };
    let memberships = match memberships_of_texts(rt.alloc(), object, boards) {
        Ok(memberships) => memberships,
        Err(fault) => {
            drop(session);
            return Err((fault, Some(left_of_found(found))));
        }
    };
    let KeptSession { session, journal } = match with_journal(rt, session, found, workers) {
        Ok(kept) => kept,
        Err(refused) => return Err(refused),
    };
    let OpenedJournal {
        store,
        publications,
    } = journal;
    let entered = publications.as_slice();
    match report_of_publications(rt.alloc(), session.book, memberships.as_slice(), entered) {
        Ok(report) => Ok(ReportedJournal { report, store }),
        Err(fault) => Err((fault, Some(left_of_journal(store)))),
    }
}

// What publications come to: of the session of a book in which nothing is entered yet, and which accepts them.
fn report_of_publications(
    alloc: Global,
    book: Book,
    memberships: &[Membership],
    publications: &[Vec<Entry>],
) -> Result<Report, KeptSessionFault>
    requires { book.journal ≡ [] }
    ensures accepted { IfOk result (λ report. IsAccepted book.opening (entries_of (lists_in publications.now))) }
    ensures report { IfOk result (λ report. report
        ≡ report_of (replay book.opening (entries_of (lists_in publications.now))) memberships.now
        (length (entries_of (lists_in publications.now)))) }
    ensures numbered { IfOk result (λ report. AreReported 1 report.boards) }
    ensures few { IfOk result (λ report. length report.boards ≤ most_boards) }
    ensures fault { IfErr result (WhyNotTold book.opening (entries_of (lists_in publications.now))) }
{
    let mut book = book;
    for publication in publications {
        if let Err(fault) = enter_all(&mut book, publication.as_slice()) {
            drop(book);
            return Err(fault);
        }
    }
    let report = report_of_book(alloc, &book, memberships);
    drop(book);
    report
}

// What a book comes to.
fn report_of_book(
    alloc: Global,
    book: &Book,
    memberships: &[Membership],
) -> Result<Report, KeptSessionFault>
    ensures accepted { IfOk result (λ report. IsAccepted book.now.opening book.now.journal) }
    ensures report { IfOk result (λ report.
        report ≡ report_of (state_of book.now) memberships.now (length book.now.journal)) }
    ensures numbered { IfOk result (λ report. AreReported 1 report.boards) }
    ensures few { IfOk result (λ report. length report.boards ≤ most_boards) }
    ensures fault { IfErr result (λ fault. fault ≡ OutOfMemory) }
{
    match report_of(alloc, book.state(), memberships, book.version()) {
        Ok(report) => Ok(report),
        Err(_) => Err(KeptSessionFault::OutOfMemory),
    }
}

// Enters entries again.
fn enter_all(book: &mut Book, entries: &[Entry]) -> Result<(), KeptSessionFault>
    ensures entered { OnOk result (book.new.journal ≡ book.old.journal ++ entries.now) }
    ensures fault { IfErr result (WhyNotTold book.old.opening (book.old.journal ++ entries.now)) }
    ensures opening { book.new.opening ≡ book.old.opening }
{
    for entry in entries {
        if let Err(fault) = enter(book, entry) {
            return Err(fault);
        }
    }
    Ok(())
}

// Enters an entry again.
fn enter(book: &mut Book, entry: &Entry) -> Result<(), KeptSessionFault>
    ensures entered { OnOk result (book.new.journal ≡ book.old.journal ++ entry.now ∷ []) }
    ensures fault { IfErr result (WhyNotTold book.old.opening (book.old.journal ++ entry.now ∷ [])) }
    ensures opening { book.new.opening ≡ book.old.opening }
{
    let number = book.version() + 1;
    match book.check(entry.actor, &entry.command) {
        Ok(checked) => {
            book.commit(checked);
            Ok(())
        }
        Err(cause) => Err(fault_of(cause, number as u32)),
    }
}
