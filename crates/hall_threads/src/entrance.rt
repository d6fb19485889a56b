//! The entrance of a hall: the listener, the connections that ask over HTTP, and what waits for the system.

ghost use Rattle.std.specs.Prelude.{◌≡◌, IfNone, IfSome, OnSome};
ghost use Rattle.hall_threads.specs.Askers.{IsOpen, LeavesFewer, AsksOneMore, still_to_come};

use crate::asker::{Asker, AskerEnd};
use crate::askers::Askers;
use crate::hall::HallPlan;
use crate::lookout::{Lookout, goes_on, is_soon};
use crate::source::Source;
use hall_door::Door;
use hall_turns::{Newcomer, RoundTerms};
use http_server::{Config, Connection, Service};
use mio::event::Event;
use mio::unix::SourceFd;
use mio::{Events, Interest, Poll};
use std::alloc::Global;
use std::hash::RandomState;
use std::io::{ErrorKind, Read, Write};
use std::net::{OpenListener, OpenStream};
use std::os::fd::{AsRawFd, RawFd};
use std::sync::atomic::Ordering;
use std::time::{Clock, Duration, Instant};
use std::{mem, thread};

// How many connections are accepted in a round.
const MOST_ACCEPTS: u32 = 4;

// How many bytes the head of a request has.
const LONGEST_HEAD: usize = 16_384;

// How many bytes one read of such a connection asks for at least.
const READ_SIZE: usize = 1_024;

// How many milliseconds lie between two walks over all clients.
const WALK: u64 = 250;

// How many milliseconds to wait where the system can't say what is ready.
const PAUSE: u64 = 100;

// How often a thread looks at most before it sleeps, whatever the clock says.
const MOST_LOOKS: u32 = 1_000;

// Whether this thread looks at the door again though the system says nothing.
#[derive(Clone, Copy, Debug, PartialEq, Eq)]
enum Look {
    // Nobody is known to wait.
    No,
    // Somebody may wait, whom this thread left to those that have fewer clients.
    Soon,
    // Somebody may wait, and is taken in whoever has fewer.
    Now,
    // Nobody could be accepted: at the next walk.
    AtWalk,
}

/// The entrance of a hall on one thread.
#[derive(Drop)]
pub(crate) struct Entrance<'a, L: OpenListener, P>
where
    L::Stream: Read + Write,
{
    alloc: Global,
    listener: &'a L,
    poll: Poll,
    plan: HallPlan<'a>,
    door: Door<'a, P>,
    askers: Askers<'a, L::Stream>,
    // Those who had their share in a round and have more, at most once each.
    listed: Vec<usize>,
    look: Look,
    // How many clients of this thread all threads know of.
    counted: usize,
    // When the hall was opened, how many milliseconds ago that was, and when the last walk was.
    opened: Instant,
    now: u64,
    walked: u64,
    lookout: Lookout,
}

impl<'a, L: OpenListener + AsRawFd, P: Service + Drop> Entrance<'a, L, P>
where
    L::Stream: Read + Write + OpenStream + AsRawFd,
{
    /// An entrance at a listener that is watched since some time.
    pub(crate) fn new(
        alloc: Global,
        listener: &'a L,
        poll: Poll,
        opened: Instant,
        plan: HallPlan<'a>,
        page: P,
    ) -> Entrance<'a, L, P>
        ensures connections { result.askers.connections ≡ plan.entry.connections }
        ensures left { still_to_come result.askers ≡ plan.entry.connections }
    {
        Entrance {
            alloc,
            listener,
            poll,
            plan,
            door: Door::new(alloc, plan.origin, plan.room, page),
            askers: Askers::new(alloc, plan.connections),
            listed: Vec::new(alloc),
            look: Look::Now,
            counted: 0,
            opened,
            now: 0,
            walked: 0,
            lookout: Lookout::new(),
        }
    }

    /// Waits until the system says what is ready, or there is something to do without it.
    pub(crate) fn wait<R: Clock>(&mut self, rt: &R, events: &mut Events<Global>, has_listed: bool)
        ensures { self.new.askers ≡ self.old.askers }
    {
        let time = if has_listed || !self.listed.is_empty() || self.look == Look::Now {
            0
        } else if self.look == Look::Soon {
            1
        } else {
            WALK
        };
        let begun = Instant::now(rt).ok();
        if time == 0 || !self.finds(rt, events, begun) {
            self.sleep(rt, events, time);
        }
        self.lookout
            .has_waited(!events.is_empty() && is_soon(rt, begun));
        if self.look == Look::Soon {
            self.look = Look::Now;
        }
    }

    // Looks whether something is ready, where that is due, and answers whether it is. A thread that sleeps is woken late where its
    // processor is halted meanwhile, or the system has it share one.
    fn finds<R: Clock>(
        &mut self,
        rt: &R,
        events: &mut Events<Global>,
        begun: Option<Instant>,
    ) -> bool
        ensures { self.new.askers ≡ self.old.askers }
    {
        if !self.lookout.is_due() {
            return false;
        }
        let found = self.looks(rt, events, begun);
        self.lookout.has_looked(found);
        found
    }

    // Looks until something is ready, but for no longer than a thread looks.
    fn looks<R: Clock>(
        &mut self,
        rt: &R,
        events: &mut Events<Global>,
        begun: Option<Instant>,
    ) -> bool
        ensures { self.new.askers ≡ self.old.askers }
    {
        for _ in 0..MOST_LOOKS {
            if self.poll.poll(events, Some(Duration::ZERO)).is_err() {
                return false;
            }
            if !events.is_empty() {
                return true;
            }
            if !goes_on(rt, begun) {
                return false;
            }
        }
        false
    }

    // Sleeps until the system says what is ready, but no longer than so many milliseconds.
    fn sleep<R: Clock>(&mut self, rt: &R, events: &mut Events<Global>, time: u64)
        ensures { self.new.askers ≡ self.old.askers }
    {
        if self
            .poll
            .poll(events, Some(Duration::from_millis(time)))
            .is_err()
        {
            thread::sleep(rt, Duration::from_millis(PAUSE));
        }
    }

    /// What is asked of clients in the round that begins. Where the clock can't be read it is as late as it was.
    pub(crate) fn terms<R: Clock>(&mut self, rt: &R) -> RoundTerms
        ensures { self.new.askers ≡ self.old.askers }
    {
        if let Ok(now) = Instant::now(rt)
            && let Ok(since) = u64::try_from(now.duration_since(self.opened).as_millis())
        {
            self.now = since;
        }
        RoundTerms {
            now: self.now,
            idle: self.plan.idle,
        }
    }

    /// Whether it is time for a walk over all clients.
    pub(crate) fn is_walk(&mut self) -> bool
        ensures { self.new.askers ≡ self.old.askers }
    {
        if self.walked.saturating_add(WALK) > self.now {
            return false;
        }
        self.walked = self.now;
        true
    }

    /// Those who go on now.
    pub(crate) fn take_listed(&mut self) -> Vec<usize>
        ensures { self.new.askers ≡ self.old.askers }
    {
        mem::replace(&mut self.listed, Vec::new(self.alloc))
    }

    /// The system has said that the stream of a connection is ready. Answers whether it has a turn.
    pub(crate) fn wake(&self, key: usize, event: &Event) -> bool {
        self.askers.wake(key, event)
    }

    /// A turn of a connection, and who it is if it was let in.
    pub(crate) fn serve(&mut self, key: usize, terms: RoundTerms) -> Option<Newcomer<'a, L::Stream>>
        ensures comes { OnSome result (LeavesFewer 1 self.old.askers self.new.askers) }
        ensures none { IfNone result (LeavesFewer 0 self.old.askers self.new.askers) }
    {
        match self.askers.take_turn(key, &mut self.door, terms) {
            AskerEnd::Asleep => None,
            AskerEnd::Hungry => {
                self.list(key);
                None
            }
            AskerEnd::LetIn => self.askers.let_in(key),
            AskerEnd::Over => {
                self.askers.end(key);
                None
            }
        }
    }

    // Lets a connection go on in the next round. Without memory for it the connection ends.
    fn list(&mut self, key: usize)
        ensures { LeavesFewer 0 self.old.askers self.new.askers }
    {
        if self.listed.push(key).is_err() {
            self.askers.end(key);
        }
    }

    /// The descriptor of a client who was let in is reported by its new key. Answers whether the system took that.
    pub(crate) fn register_talker(&self, fd: RawFd, key: usize) -> bool {
        self.poll
            .registry()
            .reregister(
                &mut SourceFd(&fd),
                Source::Talker(key).token(),
                Interest::READABLE | Interest::WRITABLE,
            )
            .is_ok()
    }

    /// Ends the connections that are late.
    pub(crate) fn end_late(&mut self)
        ensures { LeavesFewer 0 self.old.askers self.new.askers }
    {
        self.askers.end_late(self.now);
        if self.look == Look::AtWalk {
            self.look = Look::Now;
        }
    }

    /// Somebody may want to come in. Where this thread has more clients than others it leaves them to those for a moment.
    pub(crate) fn knock(&mut self, talkers: usize)
        ensures { self.new.askers ≡ self.old.askers }
    {
        self.count(talkers);
        let own = self.counted.saturating_mul(self.plan.threads);
        self.look = if own > self.plan.crowd.load(Ordering::SeqCst) {
            Look::Soon
        } else {
            Look::Now
        };
    }

    /// Takes in who waits at the door, if somebody may.
    pub(crate) fn take_in(&mut self)
        ensures { LeavesFewer 0 self.old.askers self.new.askers }
    {
        if self.look != Look::Now {
            return;
        }
        for _ in 0..MOST_ACCEPTS {
            if !self.askers.is_open() {
                self.look = Look::No;
                return;
            }
            if !self.accept() {
                return;
            }
        }
    }

    // Accepts a connection, and answers whether another may wait.
    fn accept(&mut self) -> bool
        requires { IsOpen self.old.askers }
        ensures { LeavesFewer 0 self.old.askers self.new.askers }
    {
        match self.listener.accept() {
            Ok((stream, _)) => {
                self.askers.count();
                self.admit(stream);
                true
            }
            Err(error) => {
                if error.kind() == ErrorKind::WouldBlock {
                    self.look = Look::No;
                } else {
                    // For want of a descriptor, say: who has asked longest makes room.
                    self.askers.count();
                    self.look = Look::AtWalk;
                    self.askers.end_oldest();
                }
                false
            }
        }
    }

    // Takes in a connection that was accepted.
    fn admit(&mut self, stream: L::Stream)
        ensures { AsksOneMore self.old.askers self.new.askers }
    {
        // Each answer is sent at once, and not only when the client has acknowledged the one before it. Where the stream can't,
        // the client is served all the same.
        let _unheard = stream.set_nodelay(true);
        if stream.set_nonblocking(true).is_err() {
            return;
        }
        self.askers.make_room();
        let fd = stream.as_raw_fd();
        let Some(http) = new_connection(self.alloc, self.plan.keys) else {
            return;
        };
        if let Some(key) = self.askers.insert(Asker::new(http, stream, self.now))
            && !self.register_asker(fd, key)
        {
            self.askers.end(key);
        }
    }

    // The descriptor of a client who asks is reported by its key. Answers whether the system took that.
    fn register_asker(&self, fd: RawFd, key: usize) -> bool {
        self.poll
            .registry()
            .register(
                &mut SourceFd(&fd),
                Source::Asker(key).token(),
                Interest::READABLE | Interest::WRITABLE,
            )
            .is_ok()
    }

    /// Tells the other threads how many clients there are here.
    pub(crate) fn count(&mut self, talkers: usize)
        ensures { self.new.askers ≡ self.old.askers }
    {
        let clients = self.askers.len().saturating_add(talkers);
        let crowd = self.plan.crowd;
        if clients > self.counted {
            crowd.fetch_add(clients - self.counted, Ordering::SeqCst);
        } else {
            crowd.fetch_sub(self.counted - clients, Ordering::SeqCst);
        }
        self.counted = clients;
    }

    /// Whether as many connections were accepted as there are to be, and all are gone.
    pub(crate) fn is_over(&self, talkers: usize) -> bool {
        !self.askers.is_open() && talkers == 0 && self.askers.is_empty()
    }
}

// A connection over HTTP that has read nothing, if there is memory for it.
fn new_connection(alloc: Global, keys: RandomState) -> Option<Box<Connection>> {
    Box::new(alloc, Connection::new(alloc, keys, http_config())).ok()
}

fn http_config() -> Config {
    let mut config = Config::default();
    config.max_body_len = 0;
    config.read_size = READ_SIZE;
    config.limits.max_head_len = LONGEST_HEAD;
    config
}
