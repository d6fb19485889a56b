//! A hall on one thread, round after round.

ghost use Rattle.std.specs.Prelude.{◌≡◌, None};
ghost use Rattle.hall_turns.specs.Serving.{ServesTalkers};
ghost use Rattle.hall_threads.specs.Hall.{HasServed, ServesHall};

use crate::entrance::Entrance;
use crate::source::Source;
use crate::watch::HallWatch;
use hall_door::Room;
use hall_terms::ClientEnd;
use hall_turns::{
    HallServer, Newcomer, RoundTerms, Talkers, end, end_late, let_in, serve_listed, serve_talker,
};
use http_server::Service;
use mio::Events;
use mio::event::Event;
use std::alloc::Global;
use std::hash::RandomState;
use std::io::{Read, Write};
use std::net::{OpenListener, OpenStream};
use std::os::fd::AsRawFd;
use std::sync::Wait;
use std::sync::atomic::AtomicUsize;
use std::time::Clock;

/// What a hall's thread serves by.
#[derive(Clone, Copy)]
pub struct HallPlan<'a> {
    /// How many connections it accepts. With 0 it accepts all that come, and never ends.
    pub connections: u32,
    /// How many seconds a client on whose connection somebody is signed in has from one message to the next.
    pub idle: u32,
    /// The origin that a request has to name if it names one, as a browser's does. With none any will do.
    pub origin: Option<&'a str>,
    /// How many clients there may be, in all threads.
    pub room: &'a Room,
    /// How many connections all threads have.
    pub crowd: &'a AtomicUsize,
    /// How many threads there are.
    pub threads: usize,
    /// Secret keys for maps of what clients name.
    pub keys: RandomState,
}

/// Serves the connections that come to a listener which doesn't block, all beside one another: so many of them, or all that
/// come. What a request gets that isn't for the session is answered by `page`.
pub fn serve_hall<
    'a,
    R: Wait + Clock,
    L: OpenListener + AsRawFd,
    A: HallServer<R>,
    P: Service + Drop,
>(
    rt: &R,
    alloc: Global,
    listener: &'a L,
    watch: HallWatch,
    plan: HallPlan<'a>,
    page: P,
    server: &mut A,
)
where
    L::Stream: Read + Write + OpenStream + AsRawFd,
    ensures { HasServed L.Stream.remaining L.Stream.contents A.answers A.binary_text A.memory_text A.nobody
        plan.entry.connections server.old server.new }
{
    let HallWatch {
        poll,
        mut events,
        opened,
    } = watch;
    let mut entrance = Entrance::new(alloc, listener, poll, opened, plan, page);
    let mut talkers = Talkers::new(alloc);
    for _ in rt.forever() {
        serve_round(rt, alloc, &mut events, &mut entrance, &mut talkers, server);
        if entrance.is_over(talkers.len()) {
            return;
        }
    }
}

// A round: what is ready is served.
fn serve_round<'a, R: Wait + Clock, L: OpenListener + AsRawFd, A: HallServer<R>, P: Service + Drop>(
    rt: &R,
    alloc: Global,
    events: &mut Events<Global>,
    entrance: &mut Entrance<'a, L, P>,
    talkers: &mut Talkers<'a, L::Stream, A::Guest>,
    server: &mut A,
)
where
    L::Stream: Read + Write + OpenStream + AsRawFd,
    ensures { ServesHall L.Stream.remaining L.Stream.contents A.answers A.binary_text A.memory_text A.nobody
        entrance.old.askers talkers.old.clients server.old entrance.new.askers talkers.new.clients server.new }
{
    entrance.wait(rt, events, talkers.has_listed());
    let terms = entrance.terms(rt);
    serve_listed(rt, alloc, talkers, terms, server);
    serve_askers(rt, alloc, entrance, talkers, terms, server);
    serve_events(rt, alloc, events, entrance, talkers, terms, server);
    entrance.take_in();
    walk(rt, entrance, talkers, terms, server);
    entrance.count(talkers.len());
}

// Ends whoever is late, if it is time to look.
fn walk<'a, R, L: OpenListener + AsRawFd, A: HallServer<R>, P: Service + Drop>(
    rt: &R,
    entrance: &mut Entrance<'a, L, P>,
    talkers: &mut Talkers<'a, L::Stream, A::Guest>,
    terms: RoundTerms,
    server: &A,
)
where
    L::Stream: Read + Write + OpenStream + AsRawFd,
    ensures { ServesHall L.Stream.remaining L.Stream.contents A.answers A.binary_text A.memory_text A.nobody
        entrance.old.askers talkers.old.clients server.now entrance.new.askers talkers.new.clients server.now }
{
    if entrance.is_walk() {
        entrance.end_late();
        end_late(rt, talkers, server, terms);
    }
}

// Turns of the connections that were left off in the round before.
fn serve_askers<
    'a,
    R: Wait + Clock,
    L: OpenListener + AsRawFd,
    A: HallServer<R>,
    P: Service + Drop,
>(
    rt: &R,
    alloc: Global,
    entrance: &mut Entrance<'a, L, P>,
    talkers: &mut Talkers<'a, L::Stream, A::Guest>,
    terms: RoundTerms,
    server: &mut A,
)
where
    L::Stream: Read + Write + OpenStream + AsRawFd,
    ensures { ServesHall L.Stream.remaining L.Stream.contents A.answers A.binary_text A.memory_text A.nobody
        entrance.old.askers talkers.old.clients server.old entrance.new.askers talkers.new.clients server.new }
{
    let listed = entrance.take_listed();
    for key in listed {
        serve_asker(rt, alloc, entrance, talkers, key, terms, server);
    }
}

// What is ready is served, event by event.
fn serve_events<
    'a,
    R: Wait + Clock,
    L: OpenListener + AsRawFd,
    A: HallServer<R>,
    P: Service + Drop,
>(
    rt: &R,
    alloc: Global,
    events: &Events<Global>,
    entrance: &mut Entrance<'a, L, P>,
    talkers: &mut Talkers<'a, L::Stream, A::Guest>,
    terms: RoundTerms,
    server: &mut A,
)
where
    L::Stream: Read + Write + OpenStream + AsRawFd,
    ensures { ServesHall L.Stream.remaining L.Stream.contents A.answers A.binary_text A.memory_text A.nobody
        entrance.old.askers talkers.old.clients server.old entrance.new.askers talkers.new.clients server.new }
{
    for event in events.iter() {
        serve_event(rt, alloc, event, entrance, talkers, terms, server);
    }
}

// Who an event is of has a turn, or the door is looked at.
fn serve_event<'a, R: Wait + Clock, L: OpenListener + AsRawFd, A: HallServer<R>, P: Service + Drop>(
    rt: &R,
    alloc: Global,
    event: &Event,
    entrance: &mut Entrance<'a, L, P>,
    talkers: &mut Talkers<'a, L::Stream, A::Guest>,
    terms: RoundTerms,
    server: &mut A,
)
where
    L::Stream: Read + Write + OpenStream + AsRawFd,
    ensures { ServesHall L.Stream.remaining L.Stream.contents A.answers A.binary_text A.memory_text A.nobody
        entrance.old.askers talkers.old.clients server.old entrance.new.askers talkers.new.clients server.new }
{
    match Source::of(event.token()) {
        Source::Door => entrance.knock(talkers.len()),
        Source::Asker(key) => {
            if entrance.wake(key, event) {
                serve_asker(rt, alloc, entrance, talkers, key, terms, server);
            }
        }
        Source::Talker(key) => {
            let ends = event.is_read_closed() || event.is_write_closed() || event.is_error();
            if talkers.wake(key, event.is_readable(), event.is_writable(), ends) {
                serve_talker(rt, alloc, talkers, key, terms, server);
            }
        }
    }
}

// A turn of a connection that asks. Who is let in by it has a turn at once, since it may have sent a message with its request.
fn serve_asker<'a, R: Wait + Clock, L: OpenListener + AsRawFd, A: HallServer<R>, P: Service + Drop>(
    rt: &R,
    alloc: Global,
    entrance: &mut Entrance<'a, L, P>,
    talkers: &mut Talkers<'a, L::Stream, A::Guest>,
    key: usize,
    terms: RoundTerms,
    server: &mut A,
)
where
    L::Stream: Read + Write + OpenStream + AsRawFd,
    ensures { ServesHall L.Stream.remaining L.Stream.contents A.answers A.binary_text A.memory_text A.nobody
        entrance.old.askers talkers.old.clients server.old entrance.new.askers talkers.new.clients server.new }
{
    if let Some(newcomer) = entrance.serve(key, terms) {
        welcome(rt, alloc, entrance, talkers, newcomer, terms, server);
    }
}

// Takes in who was let in.
fn welcome<'a, R: Wait + Clock, L: OpenListener + AsRawFd, A: HallServer<R>, P: Service + Drop>(
    rt: &R,
    alloc: Global,
    entrance: &Entrance<'a, L, P>,
    talkers: &mut Talkers<'a, L::Stream, A::Guest>,
    newcomer: Newcomer<'a, L::Stream>,
    terms: RoundTerms,
    server: &mut A,
)
where
    L::Stream: Read + Write + OpenStream + AsRawFd,
    ensures { ServesTalkers L.Stream.remaining L.Stream.contents A.answers A.binary_text A.memory_text A.nobody 1
        talkers.old.clients server.old talkers.new.clients server.new }
{
    let fd = newcomer.stream.stream().as_raw_fd();
    let Ok(key) = let_in::<R, L::Stream, A>(alloc, talkers, server, newcomer, terms) else {
        return;
    };
    if entrance.register_talker(fd, key) {
        serve_talker(rt, alloc, talkers, key, terms, server);
    } else {
        end(rt, talkers, server, key, ClientEnd::OutOfMemory, terms);
    }
}
