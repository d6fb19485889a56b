//! Serving a session in threads, from its book to the end of the last of them.

ghost use Rattle.std.specs.Prelude.{◌≡◌, ◌≢◌, ◌⊎◌, ℕ, List, [], map, IfOk, IfErr, OnErr};
ghost use Rattle.session_commands.specs.declared.entry.Entry.{Entry};
ghost use Rattle.displays.specs.Copies.{IsPublished};
ghost use Rattle.desks.specs.Kept.{IsKeptBy, LeavesJust};
ghost use Rattle.desks.specs.Places.{IsTallyOf};

use collector::Collect;
use desks::new_tally;
use displays::Server;
use entry_store::EntryStore;
use event_log::SharedLog;
use history::History;
use port_threads::{Announcement, PortError, PortPlan, serve_port};
use session_book::Book;
use session_commands::Entry;
use session_jobs::{CloseQueue, JobQueue, workers_of};
use shared_session::{
    DeskFault, SessionDesks, SharedSession, SharingFault, desks_of, share_session,
};
use std::alloc::Global;
use std::io::Write;
use std::marker::Brand;
use std::net::Net;
use std::sync::Wait;
use std::sync::ledger::Blank;
use std::thread::Threads;
use std::time::Clock;

/// How a session is served.
#[derive(Clone, Copy)]
pub struct ServingPlan<'a> {
    /// How its port is served: a display's thread is that of a keeper.
    pub port: PortPlan<'a>,
    /// How many displays there are, 1 to 32: each serves many clients at once.
    pub displays: u8,
    /// How many workers solve. With none nothing is solved.
    pub workers: u8,
    /// How many visits the solver may make for a deal, or for the cards that were played at a cell.
    pub budget: u64,
    /// What hears who signs in, what became of batches, whose connection ends, and what was solved, if there is a log.
    pub log: Option<&'a SharedLog>,
}

/// Why no session is served.
#[derive(Clone, Copy)]
pub enum ServingError {
    /// Memory was refused.
    OutOfMemory,
    /// There is no place for a display.
    NoPlace,
    /// The entry of this number, from 1, isn't accepted where it stands among those that the store keeps.
    NotAccepted(u32),
    /// Nothing can listen at the port.
    NotListening,
    /// No thread could be started for any display, or one can't wait for clients.
    NoThread,
}

/// Serves a session, until each display has served its connections, and gives back its store. The book has nothing entered
/// yet: the publications that the store keeps are entered first, each as one, and nothing listens before. That the port is open is
/// announced once it is.
pub fn serve_book<
    R: Threads + Wait + Clock + Net + Sync,
    K: EntryStore + Send,
    A: Announcement,
    E: Write,
>(
    rt: &R,
    alloc: Global,
    book: Book,
    plan: &ServingPlan<'_>,
    store: K,
    publications: Vec<Vec<Entry>>,
    announcement: &A,
    errors: &mut E,
) -> Result<K, ServingError>
where
    R::Listener: Sync,
    R::Stream: Send,
    requires journal { book.journal ≡ [] }
    requires kept { LeavesJust (map (λ publication. publication.items) publications.items) (K.doubt store) (K.leaves store) }
    ensures kept { IfOk result (λ after. (published : List (List Entry)) × IsPublished book.opening published
        × IsKeptBy book.opening published (K.doubt after) (K.is_open after) (K.leaves after)) }
    ensures accepted { IfErr result (λ error. (number : ℕ)
        → IsPublished book.opening (map (λ publication. publication.items) publications.items)
        → error ≢ ServingError.NotAccepted number) }
    ensures announced { IfOk result (λ _. A.tells announcement.now (E.contents errors.old) (E.contents errors.new)) }
    ensures unannounced { OnErr result ((errors.new ≡ errors.old)
        ⊎ A.tells announcement.now (E.contents errors.old) (E.contents errors.new)) }
{
    let Ok(queue) = JobQueue::open(alloc, plan.workers) else {
        drop(book);
        return Err(ServingError::OutOfMemory);
    };
    let history = History::new();
    let tally = new_tally();
    serve_named::<Brand, R, K, A, E>(
        rt,
        alloc,
        book,
        history,
        tally,
        plan,
        store,
        publications,
        &queue,
        announcement,
        errors,
    )
}

// Serves a session under a server's name.
fn serve_named<
    N: Server + Send + Sync,
    R: Threads + Wait + Clock + Net + Sync,
    K: EntryStore + Send,
    A: Announcement,
    E: Write,
>(
    rt: &R,
    alloc: Global,
    book: Book,
    history: History,
    tally: Blank,
    plan: &ServingPlan<'_>,
    store: K,
    publications: Vec<Vec<Entry>>,
    queue: &JobQueue,
    announcement: &A,
    errors: &mut E,
) -> Result<K, ServingError>
where
    R::Listener: Sync,
    R::Stream: Send,
    requires journal { book.journal ≡ [] }
    requires opening { book.opening ≡ N.opening }
    requires history { history ≡ N.history }
    requires tally { IsTallyOf N.name N.parts tally.name tally.parts }
    requires kept { LeavesJust (map (λ publication. publication.items) publications.items) (K.doubt store) (K.leaves store) }
    ensures kept { IfOk result (λ after. (published : List (List Entry)) × IsPublished N.opening published
        × IsKeptBy N.opening published (K.doubt after) (K.is_open after) (K.leaves after)) }
    ensures accepted { IfErr result (λ error. (number : ℕ)
        → IsPublished N.opening (map (λ publication. publication.items) publications.items)
        → error ≢ ServingError.NotAccepted number) }
    ensures announced { IfOk result (λ _. A.tells announcement.now (E.contents errors.old) (E.contents errors.new)) }
    ensures unannounced { OnErr result ((errors.new ≡ errors.old)
        ⊎ A.tells announcement.now (E.contents errors.old) (E.contents errors.new)) }
{
    let solving = queue_of(queue, plan.workers);
    let opened = share_session::<N, R, K>(
        rt,
        alloc,
        book,
        history,
        tally,
        store,
        publications,
        solving,
        plan.displays,
    );
    let SharedSession {
        shared,
        places,
        displays,
    } = match opened {
        Ok(session) => session,
        Err(fault) => return Err(not_shared(fault)),
    };
    let served = match desks_of(alloc, &shared, places, displays, solving, plan.log) {
        Ok(desks) => serve_desks(rt, alloc, desks, queue, plan, announcement, errors),
        Err(fault) => Err(not_placed(fault)),
    };
    let store = shared.close(rt);
    match served {
        Ok(()) => Ok(store),
        Err(error) => Err(error),
    }
}

// Why nobody is served where a session isn't shared.
fn not_shared(fault: SharingFault) -> ServingError
    ensures { (number : ℕ) → result ≡ ServingError.NotAccepted number → fault ≡ SharingFault.NotAccepted number }
{
    match fault {
        SharingFault::OutOfMemory => ServingError::OutOfMemory,
        SharingFault::NoPlace => ServingError::NoPlace,
        SharingFault::NotAccepted(number) => ServingError::NotAccepted(number),
    }
}

// Why nobody is served where a session gives out no desks.
fn not_placed(fault: DeskFault) -> ServingError
    ensures { (number : ℕ) → result ≢ ServingError.NotAccepted number }
{
    match fault {
        DeskFault::OutOfMemory => ServingError::OutOfMemory,
        DeskFault::NoPlace => ServingError::NoPlace,
    }
}

// Serves a session at its desks: what the workers find is entered at one, and what clients enter at the others.
fn serve_desks<
    N: Server + Send + Sync,
    R: Threads + Wait + Clock + Net + Sync,
    K: EntryStore + Send,
    A: Announcement,
    E: Write,
>(
    rt: &R,
    alloc: Global,
    desks: SessionDesks<'_, N, K>,
    queue: &JobQueue,
    plan: &ServingPlan<'_>,
    announcement: &A,
    errors: &mut E,
) -> Result<(), ServingError>
where
    R::Listener: Sync,
    R::Stream: Send,
    ensures accepted { IfErr result (λ error. (number : ℕ) → error ≢ ServingError.NotAccepted number) }
    ensures announced { IfOk result (λ _. A.tells announcement.now (E.contents errors.old) (E.contents errors.new)) }
    ensures unannounced { OnErr result ((errors.new ≡ errors.old)
        ⊎ A.tells announcement.now (E.contents errors.old) (E.contents errors.new)) }
{
    let SessionDesks {
        keepers,
        collecting,
    } = desks;
    let (workers, results) = match workers_of(alloc, queue, plan.budget, plan.log.is_some()) {
        Ok(opened) => opened,
        Err(_) => {
            drop(keepers);
            drop(collecting);
            return Err(ServingError::OutOfMemory);
        }
    };
    let collector = Collect {
        desk: collecting,
        queue,
        results,
        log: plan.log,
    };
    match serve_port(
        rt,
        alloc,
        collector,
        workers,
        keepers,
        CloseQueue { queue },
        plan.port,
        announcement,
        errors,
    ) {
        Ok(()) => Ok(()),
        Err(error) => Err(not_served(error)),
    }
}

// Why nobody is served where nobody is at the port.
fn not_served(error: PortError) -> ServingError
    ensures { (number : ℕ) → result ≢ ServingError.NotAccepted number }
{
    match error {
        PortError::OutOfMemory => ServingError::OutOfMemory,
        PortError::NotListening => ServingError::NotListening,
        PortError::NoThread => ServingError::NoThread,
    }
}

// The way to the workers, if there are any.
fn queue_of(queue: &JobQueue, workers: u8) -> Option<&JobQueue> {
    if workers == 0 { None } else { Some(queue) }
}
