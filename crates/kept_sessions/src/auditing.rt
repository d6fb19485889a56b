//! The audit of a journal, told where no server has it.

ghost use Rattle.std.specs.Prelude.{◌≡◌, ◌⊎◌, ◌++◌, ◌∷◌, [], false, string_bytes, IfOk, IfErr, OnOk};
ghost use Rattle.sqlite.specs.Files.{file_state};
ghost use Rattle.sqlite.specs.WalFiles.{image_at};
ghost use Rattle.history.specs.Prefixes.{entries_of};
ghost use Rattle.session_book.specs.Journal.{IsAccepted};
ghost use Rattle.session_commands.specs.Refusal.{is_out_of_memory};
ghost use Rattle.kept_entries.specs.KeptRows.{lists_in};
ghost use Rattle.kept_sessions.specs.Audited.{TellsJournal, TellsKeptJournal, WhyNotTold, line_of_row, lines_from};
ghost use Rattle.kept_sessions.specs.Faults.{AreCleanlyLeft, WhyJournalNotTold};
ghost use Rattle.kept_sessions.specs.declared.source_fault.KeptSessionFault.TheVariants.{NotAccepted, OutOfMemory};

use crate::journal_session::{KeptSession, kept_session};
use crate::left_files::left_of_journal;
use crate::source_fault::KeptSessionFault;
use journal_store::JournalFiles;
use row_journal::{OpenedJournal, RowJournal};
use session_book::{AuditRow, Book};
use session_commands::{Entry, Refusal};
use sqlite::{Alter, FileFrom, FileStore, Leftover, Start};
use std::alloc::{AllocError, Global};
use std::rt::Files;
use std::thread::Threads;
use wire::audit_row_text;

/// A journal that was told.
#[derive(Drop)]
pub struct ToldJournal<S: Alter> {
    /// Its audit, a line for each entry.
    pub audit: String,
    /// The journal, as it was opened.
    pub store: RowJournal<S>,
}

/// The audit of the journal at a path, a line for each entry. What the solver found is found again by so many workers.
/// A refusal comes with what is left of the journal's files, once they were opened.
pub fn audit_of_journal<R: Files + Threads + JournalFiles + AllocGlobal + Sync, S: Start>(
    rt: &R,
    path: &str,
    start: S,
    workers: usize,
) -> Result<ToldJournal<FileStore<FileFrom<S>>>, (KeptSessionFault, Option<Leftover<FileFrom<S>>>)>
    ensures told { IfOk result (λ told. TellsJournal (string_bytes told.audit)) }
    ensures kept { IfOk result (λ told.
        TellsKeptJournal (image_at S.Start) (string_bytes told.audit) (file_state told.store.conn)) }
    ensures why { IfErr result (λ e. AreCleanlyLeft e.1 → WhyJournalNotTold (image_at S.Start) e.1 e.0) }
{
    let KeptSession { session, journal } = match kept_session(rt, path, start, workers) {
        Ok(kept) => kept,
        Err(refused) => return Err(refused),
    };
    let OpenedJournal {
        store,
        publications,
    } = journal;
    match audit_of_publications(rt.alloc(), session.book, publications.as_slice()) {
        Ok(audit) => Ok(ToldJournal { audit, store }),
        Err(fault) => Err((fault, Some(left_of_journal(store)))),
    }
}

/// The audit of publications, a line for each entry, in their order: of the session of a book in which nothing is entered
/// yet, and which accepts them.
pub fn audit_of_publications(
    alloc: Global,
    book: Book,
    publications: &[Vec<Entry>],
) -> Result<String, KeptSessionFault>
    requires { book.journal ≡ [] }
    ensures lines { IfOk result (λ text. string_bytes text ≡ lines_from 1 (entries_of (lists_in publications.now))) }
    ensures accepted { IfOk result (λ text. IsAccepted book.opening (entries_of (lists_in publications.now))) }
    ensures fault { IfErr result (WhyNotTold book.opening (entries_of (lists_in publications.now))) }
{
    let mut book = book;
    let mut text = String::new(alloc);
    for publication in publications {
        if let Err(fault) = tell_all(alloc, &mut book, &mut text, publication.as_slice()) {
            drop(book);
            return Err(fault);
        }
    }
    // Each book's journal is accepted.
    let _version = book.version();
    drop(book);
    Ok(text)
}

// Enters entries again, and tells a line of each.
fn tell_all(
    alloc: Global,
    book: &mut Book,
    text: &mut String,
    entries: &[Entry],
) -> Result<(), KeptSessionFault>
    requires { string_bytes text.old ≡ lines_from 1 book.old.journal }
    ensures lines { OnOk result (string_bytes text.new ≡ lines_from 1 book.new.journal) }
    ensures entered { OnOk result (book.new.journal ≡ book.old.journal ++ entries.now) }
    ensures fault { IfErr result (WhyNotTold book.old.opening (book.old.journal ++ entries.now)) }
    ensures opening { book.new.opening ≡ book.old.opening }
{
    for entry in entries {
        if let Err(fault) = tell(alloc, book, text, entry) {
            return Err(fault);
        }
    }
    Ok(())
}

// Enters an entry again, and tells a line of it.
fn tell(
    alloc: Global,
    book: &mut Book,
    text: &mut String,
    entry: &Entry,
) -> Result<(), KeptSessionFault>
    requires { string_bytes text.old ≡ lines_from 1 book.old.journal }
    ensures lines { OnOk result (string_bytes text.new ≡ lines_from 1 book.new.journal) }
    ensures entered { OnOk result (book.new.journal ≡ book.old.journal ++ entry.now ∷ []) }
    ensures fault { IfErr result (WhyNotTold book.old.opening (book.old.journal ++ entry.now ∷ [])) }
    ensures opening { book.new.opening ≡ book.old.opening }
{
    let number = book.version() + 1;
    match book.check(entry.actor, &entry.command) {
        Ok(checked) => book.commit(checked),
        Err(cause) => return Err(fault_of(cause, number as u32)),
    }
    match add_line(alloc, text, number, entry) {
        Ok(()) => Ok(()),
        Err(_) => Err(KeptSessionFault::OutOfMemory),
    }
}

/// What is told of the entry of this number, which a book refuses: want of memory is no cause of the session's.
pub(crate) fn fault_of(cause: Refusal, number: u32) -> KeptSessionFault
    ensures { (result ≡ OutOfMemory) ⊎ ((result ≡ NotAccepted number) × (is_out_of_memory cause ≡ false)) }
{
    if cause.is_out_of_memory() {
        KeptSessionFault::OutOfMemory
    } else {
        KeptSessionFault::NotAccepted(number)
    }
}

// Adds the line of an entry.
fn add_line(
    alloc: Global,
    text: &mut String,
    number: usize,
    entry: &Entry,
) -> Result<(), AllocError>
    ensures { OnOk result (string_bytes text.new ≡ string_bytes text.old ++ line_of_row number entry.now) }
{
    let row = AuditRow {
        number,
        actor: entry.actor,
        word: entry.command.word(),
        target: entry.command.target(),
    };
    let line = audit_row_text(alloc, &row)?;
    text.push_str(line.as_str())?;
    text.push('\n')
}
