//! The stream of a client in a hall, and what the hall notes of the client.

ghost use Rattle.std.specs.Prelude.{◌≡◌};

use crate::round_terms::RoundTerms;
use hall_door::HallPlace;
use hall_terms::{ClientEnd, ClientEvent, ClientTime};
use many_clients::{ReadyStream, TurnEnd};
use std::cell::Cell;
use std::io::{self, Read, Write};
use std::marker::Model;

// How many milliseconds a client isn't read after a greeting that was refused.
const HELD: u64 = 1_000;

/// What comes after a client's turn.
#[derive(Clone, Copy, Debug, PartialEq, Eq)]
pub(crate) enum Next {
    /// Another turn.
    Again,
    /// Nothing until the system is ready, or it is no longer held.
    Wait,
    /// Its end, for this reason.
    Over(ClientEnd),
}

/// What the walk over all clients finds at one.
#[derive(Clone, Copy, Debug, PartialEq, Eq)]
pub(crate) enum Standing {
    /// It may go on.
    Fine,
    /// It was held, and may be read again.
    Due,
    /// It is late.
    Late,
}

/// The stream of a client in a hall: a `ReadyStream`, with what the hall notes of the client beside it.
#[derive(Drop)]
pub struct HallStream<'a, S> {
    ready: ReadyStream<S>,
    // The client's place, which is free again once the stream is let go.
    place: HallPlace<'a>,
    // When its handshake was done.
    since: u64,
    time: Cell<ClientTime>,
    // A part of an answer waits.
    is_waiting: Cell<bool>,
    // Until when it isn't read.
    held: Cell<Option<u64>>,
    // It is among those who go on in the next round.
    is_listed: Cell<bool>,
}

// What is read and written is the stream's own.
impl<'a, S> Model for HallStream<'a, S> {
    ghost Value = { S };

    ghost coded = { S.code };

    ghost view = { λ t. t.ready };
}

impl<'a, S> HallStream<'a, S> {
    /// The stream of a client whose handshake is done now, which has this place.
    pub(crate) fn new(
        ready: ReadyStream<S>,
        place: HallPlace<'a>,
        time: ClientTime,
        now: u64,
    ) -> HallStream<'a, S>
        ensures { result ≡ ready }
    {
        HallStream {
            ready,
            place,
            since: now,
            time: Cell::new(time),
            is_waiting: Cell::new(false),
            held: Cell::new(None),
            is_listed: Cell::new(false),
        }
    }

    /// The stream.
    pub fn ready(&self) -> &ReadyStream<S>
        ensures { result.now ≡ self.now }
    {
        &self.ready
    }

    // How many milliseconds ago its handshake was done.
    pub(crate) fn age(&self, now: u64) -> u64 {
        now.saturating_sub(self.since)
    }

    // A turn begins, unless the client is held.
    pub(crate) fn begin(&self) -> bool {
        if self.held.get().is_some() {
            return false;
        }
        self.ready.begin();
        true
    }

    // Notes that the client is among those who go on, and answers whether it was before.
    pub(crate) fn list(&self) -> bool {
        self.is_listed.replace(true)
    }

    // Whether it is among them.
    pub(crate) fn is_listed(&self) -> bool {
        self.is_listed.get()
    }

    // Notes that it is no longer among them.
    pub(crate) fn unlist(&self) {
        self.is_listed.set(false);
    }

    // What the walk finds.
    pub(crate) fn standing(&self, now: u64) -> Standing {
        if self.time.get().is_late(now) {
            return Standing::Late;
        }
        match self.held.get() {
            Some(until) if until <= now => {
                self.held.set(None);
                Standing::Due
            }
            _ => Standing::Fine,
        }
    }

    // Notes how a turn ended, after which somebody is signed in or nobody is, and in which a greeting was refused or none was.
    pub(crate) fn note(
        &self,
        end: TurnEnd,
        is_known: bool,
        is_refused: bool,
        terms: RoundTerms,
    ) -> Next {
        match end {
            TurnEnd::Answered => self.note_answered(is_known, is_refused, terms),
            TurnEnd::Sending => self.note_sending(is_known, is_refused, terms),
            TurnEnd::Reading => Next::Wait,
            TurnEnd::Closed(why) => Next::Over(why),
        }
    }

    // Notes that nothing waits.
    fn note_answered(&self, is_known: bool, is_refused: bool, terms: RoundTerms) -> Next {
        if self.is_waiting.get() {
            self.is_waiting.set(false);
            self.happens(ClientEvent::Taken, terms);
        } else {
            self.note_heard(is_known, is_refused, terms);
        }
        if self.held.get().is_some() {
            Next::Wait
        } else {
            Next::Again
        }
    }

    // Notes that a part of an answer waits.
    fn note_sending(&self, is_known: bool, is_refused: bool, terms: RoundTerms) -> Next {
        if !self.is_waiting.get() {
            self.note_heard(is_known, is_refused, terms);
            self.is_waiting.set(true);
        }
        self.happens(ClientEvent::Waits, terms);
        Next::Wait
    }

    // Notes that a message was read.
    fn note_heard(&self, is_known: bool, is_refused: bool, terms: RoundTerms) {
        self.happens(ClientEvent::Heard(is_known), terms);
        self.place.tell(is_known);
        if is_refused {
            self.held.set(Some(terms.now.saturating_add(HELD)));
        }
    }

    fn happens(&self, event: ClientEvent, terms: RoundTerms) {
        let time = self.time.get().after(event, terms.now, terms.idle);
        self.time.set(time);
    }
}

impl<'a, S: Read> Read for HallStream<'a, S> {
    ghost remaining = { λ t. S.remaining t };

    fn read(&mut self, buf: &mut [u8]) -> io::Result<usize> {
        self.ready.read(buf)
    }
}

impl<'a, S: Write> Write for HallStream<'a, S> {
    ghost contents = { λ t. S.contents t };

    fn write(&mut self, buf: &[u8]) -> io::Result<usize> {
        self.ready.write(buf)
    }

    fn flush(&mut self) -> io::Result<()> {
        self.ready.flush()
    }
}
