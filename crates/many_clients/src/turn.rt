//! A turn of one client: what has come is read as far as one message, which is answered.

ghost use Rattle.std.specs.Prelude.{◌≡◌, ◌⊎◌, true};
ghost use Rattle.hall_terms.specs.declared.client_end.ClientEnd.{ClientEnd};
ghost use Rattle.many_clients.specs.declared.turn_end.TurnEnd.TheVariants.{Sending, Closed};
ghost use Rattle.tungstenite.specs.Failure.{IsIo};
ghost use Rattle.tungstenite.specs.Socket.{content_of};
ghost use Rattle.many_clients.specs.Turns.{Gets, SendsOrReads, Puts, ReadsOne, SendsRest, WritesAsFar};

use crate::turn_end::TurnEnd;
use hall_terms::ClientEnd;
use std::alloc::Global;
use std::io::{ErrorKind, Read, Write};
use std::sync::Wait;
use tungstenite::{Error, Message, NoMask, WebSocket};
use websocket::error::ProtocolError;
use websocket_server::{MessageServer, answer_message, close_frame, fixed_message};

// A turn of a client, of whose answers a part waits or none does.
pub(crate) fn take_turn<R: Wait, S: Read + Write + Drop, A: MessageServer<R>>(
    rt: &R,
    alloc: Global,
    is_sending: bool,
    socket: &mut WebSocket<S, NoMask>,
    guest: &mut A::Guest,
    server: &mut A,
) -> TurnEnd
    ensures { SendsOrReads S.remaining S.contents A.answers A.binary_text A.memory_text is_sending result
        socket.old guest.old server.old socket.new guest.new server.new }
{
    if is_sending {
        send_rest(socket)
    } else {
        serve_next(rt, alloc, socket, guest, server)
    }
}

// Reads a message of a client whose stream doesn't block, and sends what it gets, as far as the stream takes it.
fn serve_next<R: Wait, S: Read + Write + Drop, A: MessageServer<R>>(
    rt: &R,
    alloc: Global,
    socket: &mut WebSocket<S, NoMask>,
    guest: &mut A::Guest,
    server: &mut A,
) -> TurnEnd
    ensures { ReadsOne S.remaining S.contents A.answers A.binary_text A.memory_text result
        socket.old guest.old server.old socket.new guest.new server.new }
{
    match socket.read() {
        Ok(message) => serve_message(rt, alloc, socket, guest, server, &message),
        Err(error) => {
            if would_block(&error) {
                TurnEnd::Reading
            } else {
                say_why(socket, &error);
                TurnEnd::Closed(end_of(&error))
            }
        }
    }
}

// Sends what a message gets that was read.
fn serve_message<R: Wait, S: Read + Write + Drop, A: MessageServer<R>>(
    rt: &R,
    alloc: Global,
    socket: &mut WebSocket<S, NoMask>,
    guest: &mut A::Guest,
    server: &mut A,
    message: &Message,
) -> TurnEnd
    ensures { Gets S.remaining S.contents A.answers A.binary_text A.memory_text result (content_of message.now)
        socket.old guest.old server.old socket.new guest.new server.new }
{
    match message {
        Message::Text(text) => match answer_message(rt, alloc, guest, text.as_bytes(), server) {
            Ok(answer) => put(socket, answer),
            Err(_) => TurnEnd::Closed(ClientEnd::OutOfMemory),
        },
        Message::Binary(_) => put(socket, fixed_message(A::binary_answer())),
        // tungstenite has a pong or a close ready, which is sent.
        Message::Ping(_) | Message::Pong(_) | Message::Close(_) => send_rest(socket),
    }
}

// Sends a message once nothing waits any more, as far as the stream takes it. Where something waits still, the connection
// is over: a message is read only where nothing waited, so that this doesn't come.
fn put<S: Read + Write + Drop>(socket: &mut WebSocket<S, NoMask>, message: Message) -> TurnEnd
    ensures { Puts S.contents result (content_of message) socket.old socket.new }
{
    match socket.flush() {
        Ok(()) => send(socket, message),
        Err(error) => TurnEnd::Closed(end_of(&error)),
    }
}

// Sends a message, as far as the stream takes it.
fn send<S: Read + Write + Drop>(socket: &mut WebSocket<S, NoMask>, message: Message) -> TurnEnd
    ensures { WritesAsFar S.contents result (content_of message) socket.old socket.new }
{
    match socket.send(message) {
        Ok(()) => TurnEnd::Answered,
        Err(error) => after_error(&error),
    }
}

// Sends what waits, as far as the stream takes it.
fn send_rest<S: Read + Write + Drop>(socket: &mut WebSocket<S, NoMask>) -> TurnEnd
    ensures { SendsRest S.contents result socket.old socket.new }
{
    match socket.flush() {
        Ok(()) => TurnEnd::Answered,
        Err(error) => after_error(&error),
    }
}

// What becomes of a connection whose stream didn't take all.
fn after_error(error: &Error) -> TurnEnd
    ensures waits { result ≡ Sending → IsIo error.now }
    ensures other { (result ≡ Sending) ⊎ ((why : ClientEnd) × (result ≡ Closed why)) }
{
    if would_block(error) {
        TurnEnd::Sending
    } else {
        TurnEnd::Closed(end_of(error))
    }
}

// Whether an error says that the stream would block.
fn would_block(error: &Error) -> bool
    ensures { result ≡ true → IsIo error.now }
{
    match error {
        Error::Io(cause) => cause.kind() == ErrorKind::WouldBlock,
        _ => false,
    }
}

// Why a connection ends whose socket can't go on.
fn end_of(error: &Error) -> ClientEnd {
    match error {
        Error::ConnectionClosed | Error::AlreadyClosed => ClientEnd::Closed,
        // The other side went without a close.
        Error::Protocol(ProtocolError::ResetWithoutClosingHandshake) => ClientEnd::Failed,
        Error::Protocol(_) | Error::Utf8 => ClientEnd::BrokeRule,
        Error::Capacity(_) => ClientEnd::TooLong,
        Error::OutOfMemory => ClientEnd::OutOfMemory,
        _ => ClientEnd::Failed,
    }
}

// Tells the client by which rule the connection ends, if a rule ends it and the stream takes so much.
fn say_why<S: Read + Write + Drop>(socket: &mut WebSocket<S, NoMask>, error: &Error) {
    if let Some(frame) = close_frame(error) {
        // The connection ends, whether the client hears it or not.
        let _unheard = socket.close(Some(frame));
    }
}
