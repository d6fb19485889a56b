//! Clients who talk, each at a key of its own.

ghost use Rattle.std.specs.Prelude.{◌≡◌, ℕ, None, Some};
ghost use Rattle.slab.specs.Slab.{get};
ghost use Rattle.hall_turns.specs.Serving.{ServesTalkers};
ghost use Rattle.many_clients.specs.Talker.{IsAtStart};
ghost use Rattle.websocket_server.specs.Messages.{longest_message};

use crate::hall_server::HallServer;
use crate::hall_stream::{HallStream, Next, Standing};
use crate::round_terms::RoundTerms;
use hall_door::HallPlace;
use hall_terms::{ClientEnd, ClientEvent, ClientTime};
use many_clients::{Client, ReadyStream, TurnEnd, admit, dismiss, serve_at};
use slab::Slab;
use std::alloc::{AllocError, Global};
use std::io::{Read, Write};
use std::mem;
use std::sync::Wait;
use tungstenite::{NoMask, Role, WebSocket, WebSocketConfig};
use websocket_server::LONGEST_MESSAGE;

// How many bytes one read of the stream asks for: a client holds as many, and its input as many again.
const READ_SIZE: usize = 1_024;

// How many messages of a client are answered in one round.
const MOST_STEPS: u32 = 16;

/// A client whose handshake is done: its stream, the bytes that came after its request, its place, and its time.
#[derive(Drop)]
pub struct Newcomer<'a, S> {
    pub stream: ReadyStream<S>,
    pub unread: Vec<u8>,
    pub place: HallPlace<'a>,
    pub time: ClientTime,
}

/// The clients of a thread who talk.
#[derive(Drop)]
pub struct Talkers<'a, S, G> {
    /// Each at a key of its own.
    pub clients: Slab<Client<HallStream<'a, S>, G>>,
    // Those who had their share in a round and have more, at most once each.
    listed: Vec<usize>,
}

impl<'a, S: Drop, G> Talkers<'a, S, G> {
    /// Nobody.
    pub fn new(alloc: Global) -> Talkers<'a, S, G>
        ensures { (key : ℕ) → get result.clients key ≡ None }
    {
        Talkers {
            clients: Slab::new(alloc),
            listed: Vec::new(alloc),
        }
    }

    /// How many there are.
    pub fn len(&self) -> usize {
        self.clients.len()
    }

    /// Whether somebody goes on in the next round whether the system says so or not.
    pub fn has_listed(&self) -> bool {
        !self.listed.is_empty()
    }

    /// The system has said that a client's stream is ready: that bytes have come, that there is room, or that the end has come.
    /// Answers whether the client has a turn: those who are listed have one of their own.
    pub fn wake(&self, key: usize, reads: bool, writes: bool, ends: bool) -> bool {
        match self.clients.get(key) {
            Some(client) => {
                client.stream().ready().wake(reads, writes, ends);
                !client.stream().is_listed()
            }
            None => false,
        }
    }

    // Whether a client has a turn now.
    fn begin(&self, key: usize) -> bool {
        match self.clients.get(key) {
            Some(client) => client.stream().begin(),
            None => false,
        }
    }

    // Whether a client was left off by its share.
    fn is_hungry(&self, key: usize) -> bool {
        match self.clients.get(key) {
            Some(client) => client.stream().ready().is_hungry(),
            None => false,
        }
    }

    // Lets a client go on in the next round, once. Without memory for it the client can't.
    fn list(&mut self, key: usize) -> Result<(), AllocError>
        ensures { self.new.clients ≡ self.old.clients }
    {
        if let Some(client) = self.clients.get(key)
            && !client.stream().list()
        {
            return self.push(key);
        }
        Ok(())
    }

    fn push(&mut self, key: usize) -> Result<(), AllocError>
        ensures { self.new.clients ≡ self.old.clients }
    {
        match self.listed.push(key) {
            Ok(()) => Ok(()),
            Err(_) => Err(AllocError),
        }
    }

    // Those who go on now.
    fn take_listed(&mut self, alloc: Global) -> Vec<usize>
        ensures { self.new.clients ≡ self.old.clients }
    {
        for key in self.listed.iter() {
            if let Some(client) = self.clients.get(*key) {
                client.stream().unlist();
            }
        }
        mem::replace(&mut self.listed, Vec::new(alloc))
    }

    // What the walk finds at a key.
    fn standing(&self, key: usize, now: u64) -> Standing {
        match self.clients.get(key) {
            Some(client) => client.stream().standing(now),
            None => Standing::Fine,
        }
    }
}

// What is kept in memory of a client's message.
fn limits() -> WebSocketConfig
    ensures message { result.max_message_size ≡ Some longest_message }
    ensures frame { result.max_frame_size ≡ Some longest_message }
{
    WebSocketConfig::default()
        .read_buffer_size(READ_SIZE)
        .max_message_size(Some(LONGEST_MESSAGE))
        .max_frame_size(Some(LONGEST_MESSAGE))
}

/// Takes in a client whose handshake is done and of which these bytes came after it. Nobody is signed in on its connection, and
/// what it is to be served by hears nothing of it.
pub fn let_in<'a, H, S: Read + Write + Drop, A: HallServer<H>>(
    alloc: Global,
    talkers: &mut Talkers<'a, S, A::Guest>,
    server: &A,
    newcomer: Newcomer<'a, S>,
    terms: RoundTerms,
) -> Result<usize, AllocError>
    ensures { ServesTalkers S.remaining S.contents A.answers A.binary_text A.memory_text A.nobody 1
        talkers.old.clients server.now talkers.new.clients server.now }
{
    let socket = socket_of(alloc, newcomer, terms);
    admit::<H, HallStream<'a, S>, A>(&mut talkers.clients, socket)
}

// The socket of a client whose handshake is done.
fn socket_of<'a, S: Read + Write + Drop>(
    alloc: Global,
    newcomer: Newcomer<'a, S>,
    terms: RoundTerms,
) -> WebSocket<HallStream<'a, S>, NoMask>
    ensures { IsAtStart result }
{
    let Newcomer {
        stream,
        unread,
        place,
        time,
    } = newcomer;
    let time = time.after(ClientEvent::Upgraded, terms.now, terms.idle);
    let stream = HallStream::new(stream, place, time, terms.now);
    WebSocket::from_partially_read(alloc, stream, NoMask, unread, Role::Server, Some(limits()))
}

/// Turns of a client, as far as its share goes. Where it has more to do then, it goes on in the next round.
pub fn serve_talker<R: Wait, S: Read + Write + Drop, A: HallServer<R>>(
    rt: &R,
    alloc: Global,
    talkers: &mut Talkers<'_, S, A::Guest>,
    key: usize,
    terms: RoundTerms,
    server: &mut A,
)
    ensures { ServesTalkers S.remaining S.contents A.answers A.binary_text A.memory_text A.nobody 0
        talkers.old.clients server.old talkers.new.clients server.new }
{
    if !talkers.begin(key) {
        return;
    }
    let next = take_turns(rt, alloc, talkers, key, terms, server);
    if let Some(why) = end_after(talkers, key, next) {
        end(rt, talkers, server, key, why, terms);
    }
}

// Why a client is over after its turns, if it is. Where it isn't, and was left off, it goes on in the next round, if there is
// memory for that.
fn end_after<S: Drop, G>(
    talkers: &mut Talkers<'_, S, G>,
    key: usize,
    next: Next,
) -> Option<ClientEnd>
    ensures { talkers.new.clients ≡ talkers.old.clients }
{
    match next {
        Next::Over(why) => Some(why),
        Next::Again => end_unless_listed(talkers, key),
        Next::Wait if talkers.is_hungry(key) => end_unless_listed(talkers, key),
        Next::Wait => None,
    }
}

// Turns of a client, and what comes after them: another, where it has had as many as it may.
fn take_turns<R: Wait, S: Read + Write + Drop, A: HallServer<R>>(
    rt: &R,
    alloc: Global,
    talkers: &mut Talkers<'_, S, A::Guest>,
    key: usize,
    terms: RoundTerms,
    server: &mut A,
) -> Next
    ensures { ServesTalkers S.remaining S.contents A.answers A.binary_text A.memory_text A.nobody 0
        talkers.old.clients server.old talkers.new.clients server.new }
{
    for _ in 0..MOST_STEPS {
        let next = take_turn(rt, alloc, talkers, key, terms, server);
        if next != Next::Again {
            return next;
        }
    }
    Next::Again
}

// A turn of a client, and what comes after it.
fn take_turn<R: Wait, S: Read + Write + Drop, A: HallServer<R>>(
    rt: &R,
    alloc: Global,
    talkers: &mut Talkers<'_, S, A::Guest>,
    key: usize,
    terms: RoundTerms,
    server: &mut A,
) -> Next
    ensures { ServesTalkers S.remaining S.contents A.answers A.binary_text A.memory_text A.nobody 0
        talkers.old.clients server.old talkers.new.clients server.new }
{
    let refusals = server.refusals();
    let end = serve_at(rt, alloc, &mut talkers.clients, key, server);
    let is_refused = server.refusals() != refusals;
    note::<R, S, A>(talkers, key, end, is_refused, terms)
}

// Notes how a turn ended, and answers what comes after it.
fn note<H, S: Read + Write + Drop, A: HallServer<H>>(
    talkers: &Talkers<'_, S, A::Guest>,
    key: usize,
    end: Option<TurnEnd>,
    is_refused: bool,
    terms: RoundTerms,
) -> Next {
    match (end, talkers.clients.get(key)) {
        (Some(end), Some(client)) => {
            let is_known = A::is_signed_in(client.guest());
            client.stream().note(end, is_known, is_refused, terms)
        }
        _ => Next::Wait,
    }
}

/// Turns of all who were left off in the round before.
pub fn serve_listed<R: Wait, S: Read + Write + Drop, A: HallServer<R>>(
    rt: &R,
    alloc: Global,
    talkers: &mut Talkers<'_, S, A::Guest>,
    terms: RoundTerms,
    server: &mut A,
)
    ensures { ServesTalkers S.remaining S.contents A.answers A.binary_text A.memory_text A.nobody 0
        talkers.old.clients server.old talkers.new.clients server.new }
{
    let listed = talkers.take_listed(alloc);
    for key in listed {
        serve_talker(rt, alloc, talkers, key, terms, server);
    }
}

/// Ends the connections of all who are late, and lets those go on who were held as long as they had to be. What they are served
/// by hears of each end, and is the same after it.
pub fn end_late<H, S: Read + Write + Drop, A: HallServer<H>>(
    rt: &H,
    talkers: &mut Talkers<'_, S, A::Guest>,
    server: &A,
    terms: RoundTerms,
)
    ensures { ServesTalkers S.remaining S.contents A.answers A.binary_text A.memory_text A.nobody 0
        talkers.old.clients server.now talkers.new.clients server.now }
{
    for key in 0..talkers.clients.capacity() {
        see_to(rt, talkers, server, key, terms);
    }
}

// Ends the connection of a client, if it has to go.
fn see_to<H, S: Read + Write + Drop, A: HallServer<H>>(
    rt: &H,
    talkers: &mut Talkers<'_, S, A::Guest>,
    server: &A,
    key: usize,
    terms: RoundTerms,
)
    ensures { ServesTalkers S.remaining S.contents A.answers A.binary_text A.memory_text A.nobody 0
        talkers.old.clients server.now talkers.new.clients server.now }
{
    if let Some(why) = end_by_now(talkers, key, terms) {
        end(rt, talkers, server, key, why, terms);
    }
}

/// Ends the connection of the client at a key, if there is one, for this reason. What they are served by hears of it, and is the
/// same after it.
pub fn end<H, S: Read + Write + Drop, A: HallServer<H>>(
    rt: &H,
    talkers: &mut Talkers<'_, S, A::Guest>,
    server: &A,
    key: usize,
    why: ClientEnd,
    terms: RoundTerms,
)
    ensures { ServesTalkers S.remaining S.contents A.answers A.binary_text A.memory_text A.nobody 0
        talkers.old.clients server.now talkers.new.clients server.now }
{
    if let Some(client) = talkers.clients.get(key) {
        server.hear_end(rt, client.guest(), why, client.stream().age(terms.now));
    }
    dismiss(&mut talkers.clients, key);
}

// Why a client has to go now, if it has to: it is late, or is to go on and there is no memory for that.
fn end_by_now<S: Drop, G>(
    talkers: &mut Talkers<'_, S, G>,
    key: usize,
    terms: RoundTerms,
) -> Option<ClientEnd>
    ensures { talkers.new.clients ≡ talkers.old.clients }
{
    match talkers.standing(key, terms.now) {
        Standing::Fine => None,
        Standing::Due => end_unless_listed(talkers, key),
        Standing::Late => Some(ClientEnd::Late),
    }
}

// Lets a client go on in the next round, or says why it can't.
fn end_unless_listed<S: Drop, G>(talkers: &mut Talkers<'_, S, G>, key: usize) -> Option<ClientEnd>
    ensures { talkers.new.clients ≡ talkers.old.clients }
{
    match talkers.list(key) {
        Ok(()) => None,
        Err(_) => Some(ClientEnd::OutOfMemory),
    }
}
