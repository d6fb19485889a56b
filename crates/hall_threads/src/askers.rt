//! The connections of a thread that ask over HTTP.

ghost use Rattle.std.specs.Prelude.{◌≡◌, ◌↔◌, IsTrue, IfNone, OnSome};
ghost use Rattle.hall_threads.specs.Askers.{IsOpen, LeavesFewer, AsksOneMore, still_to_come};

use crate::asker::{Asker, AskerEnd};
use hall_door::Door;
use hall_turns::{Newcomer, RoundTerms};
use http_server::Service;
use mio::event::Event;
use slab::Slab;
use std::alloc::Global;
use std::io::{Read, Write};
use std::net::OpenStream;

// How many connections that ask over HTTP a thread has.
const MOST_ASKERS: usize = 512;

/// The connections of a thread that ask over HTTP, each at a key of its own, and how many were accepted there.
#[derive(Drop)]
pub(crate) struct Askers<'a, S> {
    // How many are accepted in all, or with 0 all that come.
    connections: u32,
    // How many of those were accepted.
    accepted: u32,
    asking: Slab<Asker<'a, S>>,
}

impl<'a, S> Askers<'a, S> {
    /// Nobody yet, where so many connections are accepted in all, or with 0 all that come.
    pub(crate) fn new(alloc: Global, connections: u32) -> Askers<'a, S>
        ensures connections { result.connections ≡ connections }
        ensures left { still_to_come result ≡ connections }
    {
        Askers {
            connections,
            accepted: 0,
            asking: Slab::new(alloc),
        }
    }

    /// How many there are.
    pub(crate) fn len(&self) -> usize {
        self.asking.len()
    }

    /// Whether nobody is there.
    pub(crate) fn is_empty(&self) -> bool {
        self.asking.is_empty()
    }

    /// Whether more connections are to be accepted.
    pub(crate) fn is_open(&self) -> bool
        ensures { IsTrue result ↔ IsOpen self.now }
    {
        self.connections == 0 || self.accepted < self.connections
    }

    /// A connection was accepted, be it with a fault. Where all that come are accepted they aren't counted.
    pub(crate) fn count(&mut self)
        requires { IsOpen self.old }
        ensures { LeavesFewer 1 self.old self.new }
    {
        if self.connections != 0 {
            self.accepted += 1;
        }
    }

    /// Takes in a connection that was accepted, if there is memory for it, and gives its key.
    pub(crate) fn insert(&mut self, asker: Asker<'a, S>) -> Option<usize>
    where
        S: Drop,
        ensures { AsksOneMore self.old self.new }
    {
        match self.asking.insert(asker) {
            Ok(key) => Some(key),
            Err(_) => None,
        }
    }

    /// The system has said that the stream of a connection is ready. Answers whether it has a turn: those who are listed have
    /// one of their own.
    pub(crate) fn wake(&self, key: usize, event: &Event) -> bool {
        match self.asking.get(key) {
            Some(asker) => {
                let ends = event.is_read_closed() || event.is_write_closed() || event.is_error();
                asker.wake(event.is_readable(), event.is_writable(), ends);
                !asker.is_listed
            }
            None => false,
        }
    }
}

impl<'a, S: Read + Write + OpenStream + Drop> Askers<'a, S> {
    /// A turn of a connection, if there is one at the key.
    pub(crate) fn take_turn<P: Service>(
        &mut self,
        key: usize,
        door: &mut Door<'a, P>,
        terms: RoundTerms,
    ) -> AskerEnd
        ensures { LeavesFewer 0 self.old self.new }
    {
        match self.asking.get_mut(key) {
            Some(asker) => {
                let end = asker.take_turn(door, terms);
                asker.is_listed = end == AskerEnd::Hungry;
                end
            }
            None => AskerEnd::Asleep,
        }
    }

    /// Takes out who was let in, if it has a place.
    pub(crate) fn let_in(&mut self, key: usize) -> Option<Newcomer<'a, S>>
        ensures comes { OnSome result (LeavesFewer 1 self.old self.new) }
        ensures none { IfNone result (LeavesFewer 0 self.old self.new) }
    {
        match self.asking.try_remove(key) {
            Some(asker) => asker.into_newcomer(),
            None => None,
        }
    }

    /// Ends a connection, if there is one at the key.
    pub(crate) fn end(&mut self, key: usize)
        ensures { LeavesFewer 0 self.old self.new }
    {
        let _gone = self.asking.try_remove(key);
    }

    /// Ends the connections that are late.
    pub(crate) fn end_late(&mut self, now: u64)
        ensures { LeavesFewer 0 self.old self.new }
    {
        self.asking.retain(|_, asker| !asker.is_late(now));
    }

    /// Makes room for one more, if there are as many as a thread has.
    pub(crate) fn make_room(&mut self)
        ensures { LeavesFewer 0 self.old self.new }
    {
        if self.asking.len() >= MOST_ASKERS {
            self.end_oldest();
        }
    }

    /// Ends the connection that was accepted first of those that have been answered and ask nothing, or else of all.
    pub(crate) fn end_oldest(&mut self)
        ensures { LeavesFewer 0 self.old self.new }
    {
        if let Some(key) = self.oldest() {
            self.end(key);
        }
    }

    fn oldest(&self) -> Option<usize> {
        let mut oldest = None;
        let mut least = (true, u64::MAX);
        for (key, asker) in self.asking.iter() {
            let rank = (!asker.is_idle(), asker.since);
            if rank <= least {
                least = rank;
                oldest = Some(key);
            }
        }
        oldest
    }
}
