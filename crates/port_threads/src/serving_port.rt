//! Serving at a port, from its opening to the end of the last thread.

ghost use Rattle.std.specs.Prelude.{◌≡◌, ◌⊎◌, IfOk, OnErr};

use crate::announcement::Announcement;
use crate::hall::{ClientKeeper, Hall, ServeClients};
use hall_door::Room;
use hall_threads::{HallPlan, HallWatch, WatchError};
use page_answers::PageAnswers;
use service_threads::{Task, run_tasks};
use std::alloc::Global;
use std::hash::RandomState;
use std::io::Write;
use std::net::{Net, OpenListener, SocketAddr};
use std::os::fd::AsRawFd;
use std::sync::Wait;
use std::sync::atomic::AtomicUsize;
use std::thread::Threads;
use std::time::Clock;
use websocket_server::listen;

// How many bytes the stack of each thread has.
const STACK: usize = 1_048_576;

/// How a port is served.
#[derive(Clone, Copy)]
pub struct PortPlan<'a> {
    /// The address and the port at which clients come.
    pub address: SocketAddr,
    /// How many clients there are at once at most, of all keepers.
    pub clients: u32,
    /// After how many connections a keeper's thread ends. With 0 it never does.
    pub connections: u32,
    /// How many seconds a client on whose connection somebody is signed in has from one message to the next.
    pub idle: u32,
    /// The origin that a handshake has to name if it names one, as a browser's does. With none any will do.
    pub origin: Option<&'a str>,
    /// What is handed out to whoever asks for no session, if there is a page.
    pub page: Option<&'a PageAnswers>,
    /// Secret keys for maps of what clients name.
    pub keys: RandomState,
}

/// Why nobody is served at a port.
#[derive(Clone, Copy)]
pub enum PortError {
    /// Memory was refused.
    OutOfMemory,
    /// Nothing can listen at the port.
    NotListening,
    /// No thread could be started for any keeper, or one can't wait for clients.
    NoThread,
}

/// Serves at a port, until each keeper has served its connections: one task takes in what the workers find, and each keeper has
/// clients of its own. `ending` is done once the keepers have ended, and then the workers and who takes in are waited for. That the
/// port is open is announced once it is.
pub fn serve_port<
    R: Threads + Wait + Clock + Net + Sync,
    C: Task + Send + Drop,
    W: Task + Send + Drop,
    Q: ClientKeeper + Send,
    F: Task + Drop,
    A: Announcement,
    E: Write,
>(
    rt: &R,
    alloc: Global,
    collector: C,
    workers: Vec<W>,
    keepers: Vec<Q>,
    ending: F,
    plan: PortPlan<'_>,
    announcement: &A,
    errors: &mut E,
) -> Result<(), PortError>
where
    R::Listener: Sync,
    R::Stream: Send,
    ensures announced { IfOk result (λ _. A.tells announcement.now (E.contents errors.old) (E.contents errors.new)) }
    ensures unannounced { OnErr result ((errors.new ≡ errors.old)
        ⊎ A.tells announcement.now (E.contents errors.old) (E.contents errors.new)) }
{
    let listener = open_port(rt, plan.address)?;
    let room = Room::new(plan.clients);
    let crowd = AtomicUsize::new(0);
    let hall = hall_of(alloc, &listener, &room, &crowd, keepers.len(), plan);
    let serving = servers(rt, &hall, keepers)?;
    launch(
        rt,
        collector,
        workers,
        serving,
        ending,
        announcement,
        errors,
    )
}

// Listens at a port. No keeper waits for the listener alone.
fn open_port<R: Net>(rt: &R, address: SocketAddr) -> Result<R::Listener, PortError> {
    let Ok(listener) = listen(rt, address) else {
        return Err(PortError::NotListening);
    };
    if listener.set_nonblocking(true).is_err() {
        return Err(PortError::NotListening);
    }
    Ok(listener)
}

// What so many keepers' threads have in common.
fn hall_of<'a, L: OpenListener>(
    alloc: Global,
    listener: &'a L,
    room: &'a Room,
    crowd: &'a AtomicUsize,
    threads: usize,
    plan: PortPlan<'a>,
) -> Hall<'a, L> {
    Hall {
        alloc,
        listener,
        page: plan.page,
        plan: HallPlan {
            connections: plan.connections,
            idle: plan.idle,
            origin: plan.origin,
            room,
            crowd,
            threads,
            keys: plan.keys,
        },
    }
}

// Announces that the port is open, and runs what each thread does. It needs to know nothing of what they do.
fn launch<
    R: Threads + Wait + Clock + Sync,
    C: Task + Send + Drop,
    W: Task + Send + Drop,
    S: Task + Send + Drop,
    F: Task + Drop,
    A: Announcement,
    E: Write,
>(
    rt: &R,
    collector: C,
    workers: Vec<W>,
    serving: Vec<S>,
    ending: F,
    announcement: &A,
    errors: &mut E,
) -> Result<(), PortError>
    ensures announced { A.tells announcement.now (E.contents errors.old) (E.contents errors.new) }
{
    announcement.announce(errors);
    match run_tasks(rt, STACK, collector, workers, serving, ending) {
        0 => Err(PortError::NoThread),
        _ => Ok(()),
    }
}

// What the keepers' threads do.
fn servers<'a, R: Net + Clock, L: OpenListener + AsRawFd, Q: Drop>(
    rt: &R,
    hall: &'a Hall<'a, L>,
    keepers: Vec<Q>,
) -> Result<Vec<ServeClients<'a, Q, L>>, PortError> {
    let Ok(mut servers) = Vec::with_capacity(hall.alloc, keepers.len()) else {
        return Err(PortError::OutOfMemory);
    };
    for keeper in keepers {
        add_server(rt, hall, keeper, &mut servers)?;
    }
    Ok(servers)
}

// Adds what the thread of a keeper does.
fn add_server<'a, R: Net + Clock, L: OpenListener + AsRawFd, Q: Drop>(
    rt: &R,
    hall: &'a Hall<'a, L>,
    keeper: Q,
    servers: &mut Vec<ServeClients<'a, Q, L>>,
) -> Result<(), PortError> {
    let watch = watch_of(rt, hall)?;
    let server = ServeClients {
        hall,
        watch,
        keeper,
    };
    add(servers, server)
}

// Adds an item, which is dropped where memory is refused. It stands by itself, since it needs to know nothing of the item.
fn add<T: Drop>(items: &mut Vec<T>, item: T) -> Result<(), PortError> {
    match items.push(item) {
        Ok(()) => Ok(()),
        Err(_) => Err(PortError::OutOfMemory),
    }
}

// What the thread of a keeper waits by.
fn watch_of<R: Net + Clock, L: OpenListener + AsRawFd>(
    rt: &R,
    hall: &Hall<'_, L>,
) -> Result<HallWatch, PortError> {
    match HallWatch::open(rt, hall.alloc, hall.listener) {
        Ok(watch) => Ok(watch),
        Err(WatchError::OutOfMemory) => Err(PortError::OutOfMemory),
        Err(WatchError::Refused) => Err(PortError::NoThread),
    }
}
