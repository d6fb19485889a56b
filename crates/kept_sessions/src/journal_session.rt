//! A session with the journal that keeps it.

ghost use Rattle.std.specs.Prelude.{◌≡◌, ◌∷◌, [], ℕ, List, map, IfOk, IfErr};
ghost use Rattle.sqlite.specs.Files.{file_state};
ghost use Rattle.sqlite.specs.State.{HasCleanDisk};
ghost use Rattle.sqlite.specs.WalFiles.{image_at};
ghost use Rattle.journal_store.specs.Kept.{row_of_session, texts_of};
ghost use Rattle.journal_store.specs.Restart.{IsKeptAt};
ghost use Rattle.kept_entries.specs.KeptRows.{lists_in, rows_of};
ghost use Rattle.kept_sessions.specs.Faults.{AreCleanlyLeft, IsRowsFault, WhyFilesNotTakenUp, WhyNotReopened, WhyNotTakenUp};
ghost use Rattle.kept_sessions.specs.Sources.{AreOfFiles};
ghost use Rattle.kept_sessions.specs.Kept.{IsKeptSession, IsTakenSession, KeepsJust};

use crate::left_files::left_of_found;
use crate::paths::{may_hold_database, texts_of_files};
use crate::source_fault::KeptSessionFault;
use crate::source_texts::SourceTexts;
use crate::texts_session::session_of_texts;
use journal_store::{JournalFiles, SessionText};
use opened_session::{OpenedSession, OpeningFault};
use row_journal::{FoundJournal, OpenedJournal, open_kept_journal, open_row_journal};
use session_object::SessionFault;
use sqlite::{Alter, FileFrom, FileStore, Leftover, Start};
use sqlite_disk::Disk;
use std::rt::Files;
use std::str;
use std::thread::Threads;

/// A session with the journal that keeps it.
#[derive(Drop)]
pub struct KeptSession<S: Alter> {
    /// The session, in which nothing is entered yet.
    pub session: OpenedSession,
    /// The journal, with its publications.
    pub journal: OpenedJournal<S>,
}

/// The session that texts open, with its journal at a path, which is made if there is none. What the solver found is found
/// again by so many workers. A refusal comes with what is left of the journal's files, once they were opened.
pub fn kept_session_of_texts<R: JournalFiles + Threads + AllocGlobal + Sync, S: Start>(
    rt: &R,
    path: &str,
    start: S,
    texts: &SourceTexts,
    workers: usize,
) -> Result<KeptSession<FileStore<FileFrom<S>>>, (KeptSessionFault, Option<Leftover<FileFrom<S>>>)>
    ensures taken { IfOk result (λ kept. IsTakenSession (image_at S.Start) texts.now.object.items texts.now.boards.items
        kept.session.book.opening kept.session.book.journal kept.session.budget
        (lists_in kept.journal.publications.items) (file_state kept.journal.store.conn)) }
    ensures leaves { IfOk result (λ kept. KeepsJust (file_state kept.journal.store.conn)
        (lists_in kept.journal.publications.items)) }
    ensures why { IfErr result (λ e. AreCleanlyLeft e.1
        → WhyNotTakenUp (image_at S.Start) texts.now.object.items texts.now.boards.items e.1 e.0) }
{
    let boards = texts.boards.as_slice();
    let session = match session_of_texts(rt.alloc(), texts.object.as_slice(), boards) {
        Ok(session) => session,
        Err(fault) => return Err((fault, None)),
    };
    // A session object that opens a session is a text.
    let object = match str::from_utf8(texts.object.as_slice()) {
        Ok(object) => object,
        Err(_) => {
            drop(session);
            let fault = OpeningFault::Session(SessionFault::Malformed);
            return Err((KeptSessionFault::Unopened(fault), None));
        }
    };
    match open_row_journal(rt, path, start, object, boards) {
        Ok(found) => with_journal(rt, session, found, workers),
        Err((fault, left)) => {
            drop(session);
            Err((KeptSessionFault::Journal(fault), left))
        }
    }
}

/// The same of the files at two paths, which are read before the journal is opened.
pub fn kept_session_of_files<R: Files + JournalFiles + Threads + AllocGlobal + Sync, S: Start>(
    rt: &R,
    path: &str,
    start: S,
    object_path: &str,
    boards_path: &str,
    workers: usize,
) -> Result<KeptSession<FileStore<FileFrom<S>>>, (KeptSessionFault, Option<Leftover<FileFrom<S>>>)>
    ensures taken { IfOk result (λ kept. (object boards : List ℕ) × AreOfFiles R.File.remaining object boards
        × IsTakenSession (image_at S.Start) object boards
        kept.session.book.opening kept.session.book.journal kept.session.budget
        (lists_in kept.journal.publications.items) (file_state kept.journal.store.conn)) }
    ensures leaves { IfOk result (λ kept. KeepsJust (file_state kept.journal.store.conn)
        (lists_in kept.journal.publications.items)) }
    ensures why { IfErr result (λ e. AreCleanlyLeft e.1
        → WhyFilesNotTakenUp R.File.remaining (image_at S.Start) e.1 e.0) }
{
    match texts_of_files(rt, object_path, boards_path) {
        Ok(texts) => kept_session_of_texts(rt, path, start, &texts, workers),
        Err(fault) => Err((fault, None)),
    }
}

/// The session of the journal at a path, which has to be there.
pub fn kept_session<R: Files + JournalFiles + Threads + AllocGlobal + Sync, S: Start>(
    rt: &R,
    path: &str,
    start: S,
    workers: usize,
) -> Result<KeptSession<FileStore<FileFrom<S>>>, (KeptSessionFault, Option<Leftover<FileFrom<S>>>)>
    ensures kept { IfOk result (λ kept. IsKeptSession (image_at S.Start)
        kept.session.book.opening kept.session.book.journal kept.session.budget
        (lists_in kept.journal.publications.items) (file_state kept.journal.store.conn)) }
    ensures leaves { IfOk result (λ kept. KeepsJust (file_state kept.journal.store.conn)
        (lists_in kept.journal.publications.items)) }
    ensures why { IfErr result (λ e. AreCleanlyLeft e.1 → WhyNotReopened (image_at S.Start) e.1 e.0) }
{
    let (texts, found) = match kept_texts(rt, path, start) {
        Ok(kept) => kept,
        Err(refused) => return Err(refused),
    };
    match session_of_texts(rt.alloc(), texts.object.as_bytes(), texts.boards.as_slice()) {
        Ok(session) => with_journal(rt, session, found, workers),
        Err(fault) => Err((fault, Some(left_of_found(found)))),
    }
}

/// The texts of the session of the journal at a path, which has to be there, with its rows.
pub(crate) fn kept_texts<R: Files + JournalFiles, S: Start>(
    rt: &R,
    path: &str,
    start: S,
) -> Result<
    (SessionText, FoundJournal<FileStore<FileFrom<S>>>),
    (KeptSessionFault, Option<Leftover<FileFrom<S>>>),
>
    ensures opens { IfOk result (λ kept. HasCleanDisk (file_state kept.1.conn)
        → IsKeptAt (image_at S.Start) (row_of_session kept.0 ∷ []) (map texts_of kept.1.rows)
        (file_state kept.1.conn)) }
    ensures why { IfErr result (λ e. AreCleanlyLeft e.1 → WhyNotReopened (image_at S.Start) e.1 e.0) }
{
    match may_hold_database(rt, path) {
        Ok(true) => {}
        Ok(false) => return Err((KeptSessionFault::NoJournal, None)),
        Err(fault) => return Err((KeptSessionFault::Journal(fault), None)),
    }
    match open_kept_journal(rt, path, start) {
        Ok(kept) => Ok(kept),
        Err((cause, left)) => Err((KeptSessionFault::Journal(cause), left)),
    }
}

/// A session with the journal of it that was found, once that is read.
pub(crate) fn with_journal<R: Threads + AllocGlobal + Sync, D: Disk + Drop>(
    rt: &R,
    session: OpenedSession,
    found: FoundJournal<FileStore<D>>,
    workers: usize,
) -> Result<KeptSession<FileStore<D>>, (KeptSessionFault, Option<Leftover<D>>)>
    ensures read { IfOk result (λ kept. (kept.session ≡ session) × (kept.journal.store.conn ≡ found.conn)
        × (map texts_of found.rows ≡ rows_of (lists_in kept.journal.publications.items))) }
    ensures leaves { IfOk result (λ kept. KeepsJust (file_state kept.journal.store.conn)
        (lists_in kept.journal.publications.items)) }
    ensures unread { IfErr result (λ e. IsRowsFault found.rows e.0
        × (AreCleanlyLeft e.1 → HasCleanDisk (file_state found.conn))) }
{
    // Of what was found once the session's visits are no measure any more: a later solver may take others to find it again.
    match found.read(rt, rt.alloc(), u64::MAX, workers) {
        Ok(journal) => Ok(KeptSession { session, journal }),
        Err((fault, conn)) => {
            drop(session);
            Err((
                KeptSessionFault::Journal(fault),
                Some(Leftover::Store(conn.into_store())),
            ))
        }
    }
}
