//! The clients of one thread, each at a key of its own.

ghost use Rattle.std.specs.Prelude.{◌≡◌, ◌≢◌, ℕ, Some, None, IsSome, IfOk, IfSome, IfNone, OnErr, OnSome};
ghost use Rattle.slab.specs.Slab.{get, SameValues};
ghost use Rattle.many_clients.specs.Hall.{HasTaken, IsHallStep};
ghost use Rattle.many_clients.specs.Talker.{IsAtStart, newcomer_on};
ghost use Rattle.many_clients.specs.Turns.{IsTurnOf};

use crate::client::Client;
use crate::turn::take_turn;
use crate::turn_end::TurnEnd;
use slab::Slab;
use std::alloc::{AllocError, Global};
use std::io::{Read, Write};
use std::sync::Wait;
use tungstenite::{NoMask, WebSocket};
use websocket_server::MessageServer;

/// Takes in a client whose handshake is done, on whose connection nobody is signed in, and gives its key. Its socket has read and
/// written no message, and reads none that is too long. Where there is no memory for one more it is let go.
pub fn admit<H, S: Read + Write + Drop, A: MessageServer<H>>(
    clients: &mut Slab<Client<S, A::Guest>>,
    socket: WebSocket<S, NoMask>,
) -> Result<usize, AllocError>
    requires { IsAtStart socket }
    ensures free { IfOk result (λ key. get clients.old key ≡ None) }
    ensures comes { IfOk result (λ key. get clients.new key ≡ Some (newcomer_on socket A.nobody)) }
    ensures others { IfOk result (λ key. (other : ℕ) → other ≢ key → get clients.new other ≡ get clients.old other) }
    ensures none { OnErr result (SameValues clients.old clients.new) }
{
    let client = Client {
        socket,
        guest: A::newcomer(),
        is_sending: false,
    };
    match clients.insert(client) {
        Ok(key) => Ok(key),
        Err(_) => Err(AllocError),
    }
}

/// Ends the connection of the client at a key, if there is one. No other place is touched.
pub fn dismiss<S: Drop, G: Drop>(clients: &mut Slab<Client<S, G>>, key: usize)
    ensures goes { get clients.new key ≡ None }
    ensures others { (other : ℕ) → other ≢ key → get clients.new other ≡ get clients.old other }
{
    let _gone = clients.try_remove(key);
}

/// A turn of the client at a key, if there is one: a message is read if one has come whole, and what it gets is sent as far
/// as its stream takes it; where a part of an answer waits that is sent on, and nothing is read. No other place is touched.
pub fn serve_at<R: Wait, S: Read + Write + Drop, A: MessageServer<R>>(
    rt: &R,
    alloc: Global,
    clients: &mut Slab<Client<S, A::Guest>>,
    key: usize,
    server: &mut A,
) -> Option<TurnEnd>
    ensures others { (other : ℕ) → other ≢ key → get clients.new other ≡ get clients.old other }
    ensures turn { IfSome result (λ end. IfSome (get clients.old key) (λ before. IfSome (get clients.new key) (λ after.
        IsTurnOf S.remaining S.contents A.answers A.binary_text A.memory_text end before server.old after server.new))) }
    ensures stays { OnSome result (IsSome (get clients.old key) × IsSome (get clients.new key)) }
    ensures nobody { IfNone result ((clients.new ≡ clients.old) × (server.new ≡ server.old)) }
{
    let Some(mut client) = clients.try_remove(key) else {
        return None;
    };
    let end = take_turn(
        rt,
        alloc,
        client.is_sending,
        &mut client.socket,
        &mut client.guest,
        server,
    );
    client.is_sending = end.is_sending();
    clients.insert_reserved(client);
    Some(end)
}

/// Turns of the clients at these keys, one after another. A key at which there is nobody is passed over.
pub fn serve_all<R: Wait, S: Read + Write + Drop, A: MessageServer<R>>(
    rt: &R,
    alloc: Global,
    clients: &mut Slab<Client<S, A::Guest>>,
    keys: &[usize],
    server: &mut A,
)
    ensures { HasTaken (IsHallStep S.remaining S.contents A.answers A.binary_text A.memory_text A.nobody)
        (get clients.old) server.old (get clients.new) server.new }
{
    for key in keys {
        let _end = serve_at(rt, alloc, clients, *key, server);
    }
}
