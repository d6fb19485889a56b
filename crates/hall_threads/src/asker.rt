//! A connection that asks over HTTP, from its first byte until it is let in or ends.

use bytes::BytesMut;
use hall_door::{Door, HallPlace};
use hall_terms::{ClientEvent, ClientTime};
use hall_turns::{Newcomer, RoundTerms};
use http_server::{Connection, Service, State};
use many_clients::ReadyStream;
use std::alloc::Global;
use std::io::{ErrorKind, Read, Write};
use std::net::{OpenStream, Shutdown};

// How many reads and writes one connection has in a round.
const MOST_STEPS: u32 = 16;

// How many bytes are read at once of what a connection sends that isn't answered any more.
const LEFT_SIZE: usize = 512;

// How far a connection has come.
#[derive(Drop)]
enum Stage {
    // It asks, and is answered.
    Asking(Box<Connection>),
    // It was answered for the last time. What still comes is read and dropped, since a socket that is closed with bytes
    // unread can take the answer from the client.
    Leaving,
}

/// How a turn of a connection ended.
#[derive(Clone, Copy, Debug, PartialEq, Eq)]
pub(crate) enum AskerEnd {
    /// Nothing more can be done until the system is ready.
    Asleep,
    /// It has had its share, and goes on in the next round.
    Hungry,
    /// It was let in.
    LetIn,
    /// It is over.
    Over,
}

// What comes after a step.
#[derive(Clone, Copy, PartialEq, Eq)]
enum Step {
    Again,
    Wait,
    LetIn,
    Over,
}

/// A connection that asks over HTTP.
#[derive(Drop)]
pub(crate) struct Asker<'a, S> {
    stage: Stage,
    stream: ReadyStream<S>,
    // The place of who was let in.
    place: Option<HallPlace<'a>>,
    time: ClientTime,
    // A part of an answer waits.
    is_waiting: bool,
    // It has had an answer, and has asked nothing since.
    is_idle: bool,
    /// It is among those who go on in the next round.
    pub(crate) is_listed: bool,
    /// When it was accepted.
    pub(crate) since: u64,
}

impl<'a, S> Asker<'a, S> {
    /// A connection that was accepted now.
    pub(crate) fn new(http: Box<Connection>, stream: S, now: u64) -> Asker<'a, S> {
        Asker {
            stage: Stage::Asking(http),
            stream: ReadyStream::new(stream),
            place: None,
            time: ClientTime::accepted(now),
            is_waiting: false,
            is_idle: false,
            is_listed: false,
            since: now,
        }
    }

    /// The system has said that its stream is ready.
    pub(crate) fn wake(&self, reads: bool, writes: bool, ends: bool) {
        self.stream.wake(reads, writes, ends);
    }

    /// Whether it is late.
    pub(crate) fn is_late(&self, now: u64) -> bool {
        self.time.is_late(now)
    }

    /// Whether it has been answered, and asks nothing.
    pub(crate) fn is_idle(&self) -> bool {
        self.is_idle
    }

    fn happens(&mut self, event: ClientEvent, terms: RoundTerms) {
        self.time = self.time.after(event, terms.now, terms.idle);
    }
}

impl<'a, S: Read + Write + OpenStream + Drop> Asker<'a, S> {
    /// A turn, as far as its share goes.
    pub(crate) fn take_turn<P: Service>(
        &mut self,
        door: &mut Door<'a, P>,
        terms: RoundTerms,
    ) -> AskerEnd {
        self.stream.begin();
        for _ in 0..MOST_STEPS {
            match self.take_step(door, terms) {
                Step::Again => {}
                Step::Wait => return self.rest(),
                Step::LetIn => return AskerEnd::LetIn,
                Step::Over => return AskerEnd::Over,
            }
        }
        AskerEnd::Hungry
    }

    fn rest(&self) -> AskerEnd {
        if self.stream.is_hungry() {
            AskerEnd::Hungry
        } else {
            AskerEnd::Asleep
        }
    }

    // One read or write.
    fn take_step<P: Service>(&mut self, door: &mut Door<'a, P>, terms: RoundTerms) -> Step {
        match &mut self.stage {
            Stage::Asking(http) => {
                if http.wants_write() {
                    self.send(door, terms)
                } else if http.is_done() {
                    self.finish()
                } else {
                    self.hear(door)
                }
            }
            Stage::Leaving => self.drop_rest(),
        }
    }

    // Sends what waits, as far as the stream takes it.
    fn send<P: Service>(&mut self, door: &mut Door<'a, P>, terms: RoundTerms) -> Step {
        let Stage::Asking(http) = &mut self.stage else {
            return Step::Over;
        };
        match http.write_to(&mut self.stream) {
            Ok(0) => Step::Over,
            Ok(_) => {
                let is_taken = !http.wants_write();
                self.advance(door);
                if is_taken {
                    self.is_idle = true;
                    self.note_taken(terms);
                }
                Step::Again
            }
            Err(error) => {
                if error.kind() == ErrorKind::WouldBlock {
                    self.is_waiting = true;
                    self.happens(ClientEvent::Waits, terms);
                    Step::Wait
                } else {
                    Step::Over
                }
            }
        }
    }

    // Answers the requests that have come. One that is let in gets its place.
    fn advance<P: Service>(&mut self, door: &mut Door<'a, P>) {
        if let Stage::Asking(http) = &mut self.stage {
            http.advance(door);
            if let Some(place) = door.take_place() {
                self.place = Some(place);
            }
        }
    }

    // Notes that nothing waits any more.
    fn note_taken(&mut self, terms: RoundTerms) {
        if self.is_waiting {
            self.is_waiting = false;
            self.happens(ClientEvent::Taken, terms);
        }
    }

    // Reads what has come, and answers the requests in it.
    fn hear<P: Service>(&mut self, door: &mut Door<'a, P>) -> Step {
        let Stage::Asking(http) = &mut self.stage else {
            return Step::Over;
        };
        match http.read_from(&mut self.stream) {
            Ok(_) => {
                self.is_idle = false;
                self.advance(door);
                Step::Again
            }
            Err(error) => {
                if error.kind() == ErrorKind::WouldBlock {
                    Step::Wait
                } else {
                    Step::Over
                }
            }
        }
    }

    // HTTP has nothing more to do: who was let in goes to those who talk, and any other leaves.
    fn finish(&mut self) -> Step {
        let Stage::Asking(http) = &self.stage else {
            return Step::Over;
        };
        match http.state() {
            State::Upgraded => Step::LetIn,
            State::Open | State::Aborted => Step::Over,
            State::Closing(_) => {
                if self.stream.stream().shutdown(Shutdown::Write).is_err() {
                    return Step::Over;
                }
                self.stage = Stage::Leaving;
                Step::Again
            }
        }
    }

    // Reads what a connection still sends that is no longer answered, and drops it.
    fn drop_rest(&mut self) -> Step {
        let mut bytes = [0; LEFT_SIZE];
        match self.stream.read(&mut bytes) {
            Ok(0) => Step::Over,
            Ok(_) => Step::Again,
            Err(error) => {
                if error.kind() == ErrorKind::WouldBlock {
                    Step::Wait
                } else {
                    Step::Over
                }
            }
        }
    }

    /// Who was let in, if it has a place.
    pub(crate) fn into_newcomer(self) -> Option<Newcomer<'a, S>> {
        let Asker {
            stage,
            stream,
            place,
            time,
            ..
        } = self;
        let (Stage::Asking(http), Some(place)) = (stage, place) else {
            return None;
        };
        let (input, _pending) = Box::into_inner(http).into_buffers();
        let Some(unread) = bytes_of(input) else {
            return None;
        };
        Some(Newcomer {
            stream,
            unread,
            place,
            time,
        })
    }
}

// The bytes of a buffer, if there is memory for them.
fn bytes_of(input: BytesMut) -> Option<Vec<u8>> {
    match input.into_vec() {
        Ok(bytes) => Some(bytes),
        Err(_) => None,
    }
}
