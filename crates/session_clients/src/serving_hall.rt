//! Clients that are served beside one another over one who keeps a session.

ghost use Rattle.std.specs.Prelude.{◌≡◌, ℕ, Option, List, []};
ghost use Rattle.many_clients.specs.Talker.{Talker};
ghost use Rattle.session_clients.specs.Transcript.{AreServedInTurns};

use crate::session_server::SessionServer;
use event_log::SharedLog;
use hall_threads::{HallPlan, HallWatch, serve_hall};
use http_server::Service;
use session_keeper::CommandKeeper;
use std::alloc::Global;
use std::io::{Read, Write};
use std::net::{OpenListener, OpenStream};
use std::os::fd::AsRawFd;
use std::sync::Wait;
use std::time::Clock;

/// Serves the connections that come to a listener which doesn't block over one who keeps a session, all beside one another,
/// and gives the keeper back once as many have come and gone as the plan has. A log hears who signs in, and whose connection
/// ends, if there is one.
pub fn serve_session_hall<
    'a,
    R: Wait + Clock,
    L: OpenListener + AsRawFd,
    K: CommandKeeper<R>,
    P: Service + Drop,
>(
    rt: &R,
    alloc: Global,
    listener: &'a L,
    watch: HallWatch,
    plan: HallPlan<'a>,
    page: P,
    keeper: K,
    log: Option<&SharedLog>,
) -> K
where
    L::Stream: Read + Write + OpenStream + AsRawFd,
    requires { K.journal keeper ≡ [] }
    ensures opening { K.opening result ≡ K.opening keeper }
    ensures served { (places : ℕ → Option (Talker L.Stream (Option (List ℕ))))
        × AreServedInTurns L.Stream.remaining L.Stream.contents K.others K.no_entry K.not_kept
        (K.opening keeper) (K.own_entries keeper) plan.entry.connections places (K.journal result) (K.own_entries result) }
{
    let mut server = SessionServer::new(alloc, keeper, log);
    serve_hall(rt, alloc, listener, watch, plan, page, &mut server);
    server.into_keeper()
}
