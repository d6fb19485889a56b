//! Clients that are served over WebSockets.

ghost use Rattle.std.specs.Prelude.{◌≡◌, ◌≢◌, ◌⊎◌, [], map, IfOk};
ghost use Rattle.sqlite.specs.Files.{file_state};
ghost use Rattle.sqlite.specs.Held.{state};
ghost use Rattle.desks.specs.Kept.{LeavesJust};
ghost use Rattle.kept_entries.specs.KeptRows.{lists_in};
ghost use Rattle.program.specs.Status.{IsStatus};
ghost use Rattle.kept_sessions.specs.Kept.{KeepsJust};
ghost use Rattle.operator_lines.specs.Telling.{TellsLine};
ghost use Rattle.called_program.specs.Said.{
  IsToldServed,
  IsToldUnserved,
  EndsKept,
  EndsUnkept,
  TellsServed,
  TellsUnkept,
  unkept_line,
};

use crate::serving_announcement::ServingAnnouncement;
use crate::serving_fault::{ServingFault, status_of_serving_fault, status_of_source_fault};
use crate::serving_means::{ServingMeans, open_means, status_of_opening_fault};
use entry_store::{EntryStore, NoStore};
use event_log::LogFiles;
use journal_store::JournalFiles;
use kept_sessions::{
    KeptSession, KeptSessionFault, kept_session, kept_session_of_files, session_of_files,
};
use opened_session::OpenedSession;
use operator_lines::{KeptIn, PortFault, ServingLine, tell};
use port_threads::PortPlan;
use row_journal::OpenedJournal;
use server_words::{Serving, SessionFiles, SessionSource};
use session_commands::Entry;
use session_threads::{ServingError, ServingPlan, serve_book};
use sqlite::{Alter, FileFrom, FileStore, Leftover, Wary};
use std::alloc::Global;
use std::io::Write;
use std::net::{Net, SocketAddr, TcpListener};
use std::random::RandomSource;
use std::rt::Files;
use std::sync::Wait;
use std::thread::Threads;
use std::time::Clock;
use websocket_server::LONGEST_MESSAGE;
use wire::MOST_MESSAGE_BYTES;

// A message that is one byte too long is read whole, so that it can be answered.
const _: () = prove!(LONGEST_MESSAGE == MOST_MESSAGE_BYTES + 1);

// The words may ask for as many displays as a server has at most, and for no more.
const _: () = prove!(server_words::DISPLAYS_AT_MOST as usize == displays::MOST_DISPLAYS);

// They may ask for as many clients as a hall has at most.
const _: () = prove!(server_words::CLIENTS_AT_MOST == hall_terms::MOST_CLIENTS);

/// Serves clients in a session, and answers the status after it, or where none could be served. The page is read first and then
/// the log is opened, where they are asked for.
pub(crate) fn status_of_serving<
    R: Files
        + Net
        + Clock
        + Wait
        + Threads
        + RandomSource
        + JournalFiles
        + LogFiles
        + AllocGlobal
        + Sync,
    E: Write,
>(rt: &R, serving: &Serving<'_>, errors: &mut E) -> u8
where
    R::Listener: Sync,
    R::Stream: Send,
    ensures statuses { IsStatus result }
    ensures told { result ≡ 0 → IsToldServed serving.now.source (E.contents errors.old) (E.contents errors.new) }
    ensures unserved { (result ≡ 3) ⊎ (result ≡ 4) →
        IsToldUnserved serving.now.source result (E.contents errors.old) (E.contents errors.new) }
    ensures understood { result ≢ 2 }
{
    match open_means(rt, serving.page, serving.log) {
        Ok(means) => status_of_source(rt, serving, means.lent(), errors),
        Err(fault) => status_of_opening_fault(rt.alloc(), &fault, errors),
    }
}

// Serves clients in a session, and hands out what was opened before.
fn status_of_source<
    R: Files + Net + Clock + Wait + Threads + JournalFiles + AllocGlobal + Sync,
    E: Write,
>(rt: &R, serving: &Serving<'_>, means: ServingMeans<'_>, errors: &mut E) -> u8
where
    R::Listener: Sync,
    R::Stream: Send,
    ensures statuses { IsStatus result }
    ensures told { result ≡ 0 → IsToldServed serving.now.source (E.contents errors.old) (E.contents errors.new) }
    ensures unserved { (result ≡ 3) ⊎ (result ≡ 4) →
        IsToldUnserved serving.now.source result (E.contents errors.old) (E.contents errors.new) }
    ensures understood { result ≢ 2 }
{
    match serving.source {
        SessionSource::Files(files) => status_of_files(rt, serving, means, &files, errors),
        SessionSource::Journal(path, files) => {
            status_of_journal(rt, serving, means, path, &files, errors)
        }
    }
}

// Serves clients in a session of files, which is kept nowhere.
fn status_of_files<R: Files + Net + Clock + Wait + Threads + AllocGlobal + Sync, E: Write>(
    rt: &R,
    serving: &Serving<'_>,
    means: ServingMeans<'_>,
    files: &SessionFiles<'_>,
    errors: &mut E,
) -> u8
where
    R::Listener: Sync,
    R::Stream: Send,
    ensures statuses { IsStatus result }
    ensures told { result ≡ 0 → TellsUnkept (E.contents errors.old) (E.contents errors.new) }
    ensures unserved { (result ≡ 3) ⊎ (result ≡ 4) → EndsUnkept result (E.contents errors.old) (E.contents errors.new) }
    ensures understood { result ≢ 2 }
{
    match session_of_files(rt, files.session, files.deals) {
        Ok(session) => status_of_unkept(rt, serving, means, session, errors),
        Err(fault) => status_of_source_fault(rt.alloc(), fault, Some(files), errors),
    }
}

// Tells that a session is kept nowhere, and serves clients in it.
fn status_of_unkept<R: Net + Clock + Wait + Threads + AllocGlobal + Sync, E: Write>(
    rt: &R,
    serving: &Serving<'_>,
    means: ServingMeans<'_>,
    session: OpenedSession,
    errors: &mut E,
) -> u8
where
    R::Listener: Sync,
    R::Stream: Send,
    requires { session.book.journal ≡ [] }
    ensures statuses { IsStatus result }
    ensures told { result ≡ 0 → TellsUnkept (E.contents errors.old) (E.contents errors.new) }
    ensures unserved { (result ≡ 3) ⊎ (result ≡ 4) → EndsUnkept result (E.contents errors.old) (E.contents errors.new) }
    ensures understood { result ≢ 2 }
{
    tell_unkept(errors);
    let publications = Vec::new(rt.alloc());
    match serve_session(
        rt,
        serving,
        means,
        KeptIn::Nothing,
        session,
        NoStore,
        publications,
        errors,
    ) {
        Ok(_store) => 0,
        Err(fault) => status_of_serving_fault(rt.alloc(), fault, errors),
    }
}

// Tells that a session is kept nowhere.
fn tell_unkept<E: Write>(errors: &mut E)
    ensures { TellsLine (E.contents errors.old) (E.contents errors.new) unkept_line }
{
    tell(
        errors,
        "bridge_server: without --journal nothing is kept when the server ends\n",
    );
}

// Serves clients in a session that a journal keeps. What the solver found is found again even where nobody is to solve.
fn status_of_journal<
    R: Files + Net + Clock + Wait + Threads + JournalFiles + AllocGlobal + Sync,
    E: Write,
>(
    rt: &R,
    serving: &Serving<'_>,
    means: ServingMeans<'_>,
    path: &str,
    files: &Option<SessionFiles<'_>>,
    errors: &mut E,
) -> u8
where
    R::Listener: Sync,
    R::Stream: Send,
    ensures statuses { IsStatus result }
    ensures told { result ≡ 0 → TellsServed (E.contents errors.old) (E.contents errors.new) }
    ensures unserved { result ≡ 4 → EndsKept result (E.contents errors.old) (E.contents errors.new) }
    ensures understood { result ≢ 2 }
{
    match open_kept(rt, serving, path, files) {
        Ok(kept) => status_of_kept(rt, serving, means, path, kept, errors),
        Err((fault, _left)) => status_of_source_fault(rt.alloc(), fault, files.as_ref(), errors),
    }
}

// The session that is served, with its journal: that of the files, if there are any.
fn open_kept<R: Files + Threads + JournalFiles + AllocGlobal + Sync>(
    rt: &R,
    serving: &Serving<'_>,
    path: &str,
    files: &Option<SessionFiles<'_>>,
) -> Result<
    KeptSession<FileStore<FileFrom<Wary>>>,
    (KeptSessionFault, Option<Leftover<FileFrom<Wary>>>),
>
    ensures opening { IfOk result (λ kept. kept.session.book.journal ≡ []) }
    ensures kept { IfOk result (λ kept. KeepsJust (file_state kept.journal.store.conn)
        (lists_in kept.journal.publications.items)) }
{
    let workers = serving.workers.max(1) as usize;
    match files {
        Some(files) => kept_session_of_files(rt, path, Wary, files.session, files.deals, workers),
        None => kept_session(rt, path, Wary, workers),
    }
}

// Serves clients in a session with a journal that was read, and answers the status after it.
fn status_of_kept<
    R: Net + Clock + Wait + Threads + AllocGlobal + Sync,
    S: Alter + Drop + Send,
    E: Write,
>(
    rt: &R,
    serving: &Serving<'_>,
    means: ServingMeans<'_>,
    path: &str,
    kept: KeptSession<S>,
    errors: &mut E,
) -> u8
where
    R::Listener: Sync,
    R::Stream: Send,
    requires opening { kept.session.book.journal ≡ [] }
    requires kept { KeepsJust (state S.Store kept.journal.store.conn) (lists_in kept.journal.publications.items) }
    ensures statuses { IsStatus result }
    ensures told { result ≡ 0 → TellsServed (E.contents errors.old) (E.contents errors.new) }
    ensures unserved { (result ≡ 3) ⊎ (result ≡ 4) → EndsKept result (E.contents errors.old) (E.contents errors.new) }
    ensures understood { result ≢ 2 }
{
    let version = entries_in(kept.journal.publications.as_slice());
    let kept_in = KeptIn::Journal(path, version);
    match serve_kept(rt, serving, means, kept_in, kept, errors) {
        Ok(()) => 0,
        Err(fault) => status_of_serving_fault(rt.alloc(), fault, errors),
    }
}

// How many entries publications have.
fn entries_in(publications: &[Vec<Entry>]) -> usize {
    let mut count: usize = 0;
    for publication in publications {
        count = count.saturating_add(publication.len());
    }
    count
}

// Serves clients in a session with a journal that was read.
fn serve_kept<
    R: Net + Clock + Wait + Threads + AllocGlobal + Sync,
    S: Alter + Drop + Send,
    E: Write,
>(
    rt: &R,
    serving: &Serving<'_>,
    means: ServingMeans<'_>,
    kept_in: KeptIn<'_>,
    kept: KeptSession<S>,
    errors: &mut E,
) -> Result<(), ServingFault>
where
    R::Listener: Sync,
    R::Stream: Send,
    requires opening { kept.session.book.journal ≡ [] }
    requires kept { KeepsJust (state S.Store kept.journal.store.conn) (lists_in kept.journal.publications.items) }
    ensures { TellsServed (E.contents errors.old) (E.contents errors.new) }
{
    let KeptSession { session, journal } = kept;
    let OpenedJournal {
        store,
        publications,
    } = journal;
    match serve_session(
        rt,
        serving,
        means,
        kept_in,
        session,
        store,
        publications,
        errors,
    ) {
        Ok(_store) => Ok(()),
        Err(fault) => Err(fault),
    }
}

// Serves clients in an open session, and gives its store back. Once its port is open, how it is served is told.
fn serve_session<
    R: Net + Clock + Wait + Threads + AllocGlobal + Sync,
    K: EntryStore + Send,
    E: Write,
>(
    rt: &R,
    serving: &Serving<'_>,
    means: ServingMeans<'_>,
    kept_in: KeptIn<'_>,
    session: OpenedSession,
    store: K,
    publications: Vec<Vec<Entry>>,
    errors: &mut E,
) -> Result<K, ServingFault>
where
    R::Listener: Sync,
    R::Stream: Send,
    requires journal { session.book.journal ≡ [] }
    requires kept { LeavesJust (map (λ publication. publication.items) publications.items) (K.doubt store) (K.leaves store) }
    ensures { TellsServed (E.contents errors.old) (E.contents errors.new) }
{
    let plan = plan_of(serving, means, &session);
    let announcement = announcement_of(rt.alloc(), serving, &session, kept_in);
    let alloc = rt.alloc();
    match serve_book(
        rt,
        alloc,
        session.book,
        &plan,
        store,
        publications,
        &announcement,
        errors,
    ) {
        Ok(store) => Ok(store),
        Err(fault) => Err(fault_of_serving(rt, plan.port.address, fault)),
    }
}

// What is told of a session once its port is open.
fn announcement_of<'a>(
    alloc: Global,
    serving: &Serving<'_>,
    session: &OpenedSession,
    kept: KeptIn<'a>,
) -> ServingAnnouncement<'a> {
    let line = ServingLine {
        address: address_of(serving),
        tables: session.book.state().public().movement.tables(),
        displays: serving.displays,
        workers: serving.workers,
        kept,
    };
    ServingAnnouncement { alloc, line }
}

// Why nobody is served. Of a port at which nothing can listen the system is asked once more.
fn fault_of_serving<R: Net>(rt: &R, address: SocketAddr, fault: ServingError) -> ServingFault {
    match fault {
        ServingError::OutOfMemory => ServingFault::OutOfMemory,
        ServingError::NoPlace => ServingFault::NoPlace,
        ServingError::NotAccepted(number) => ServingFault::NotAccepted(number),
        ServingError::NotListening => {
            ServingFault::NotListening(address.port(), why_not_listening(rt, address))
        }
        ServingError::NoThread => ServingFault::NoThread,
    }
}

// Why nothing can listen at a port. Where something can by now, another program had it.
fn why_not_listening<R: Net>(rt: &R, address: SocketAddr) -> PortFault {
    match TcpListener::bind(rt, address) {
        Ok(_) => PortFault::Taken,
        Err(error) => PortFault::of_kind(error.kind()),
    }
}

// Where clients come.
fn address_of(serving: &Serving<'_>) -> SocketAddr {
    SocketAddr::from((serving.address, serving.port))
}

// How an open session is served: as the words ask for it, and with its own visits.
fn plan_of<'a>(
    serving: &Serving<'a>,
    means: ServingMeans<'a>,
    session: &OpenedSession,
) -> ServingPlan<'a>
    ensures { result.budget ≡ session.now.budget }
{
    ServingPlan {
        port: PortPlan {
            address: address_of(serving),
            clients: serving.clients,
            connections: serving.connections,
            idle: serving.idle,
            origin: serving.origin,
            page: means.page,
            keys: means.keys,
        },
        displays: serving.displays,
        workers: serving.workers,
        budget: session.budget,
        log: means.log,
    }
}
