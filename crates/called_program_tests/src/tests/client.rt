//! Clients of the server, whose bytes are those of RFC 6455.

use std::io::{Read, Write};
use std::net::{Ipv4Addr, Net, OpenStream, Shutdown, TcpStream};
use std::thread;
use std::time::{Clock, Duration};

// The request of the standard's own example (1.2, 1.3).
const HANDSHAKE: &[u8] = b"GET / HTTP/1.1\r\nHost: 127.0.0.1\r\nUpgrade: websocket\r\n\
Connection: Upgrade\r\nSec-WebSocket-Key: dGhlIHNhbXBsZSBub25jZQ==\r\nSec-WebSocket-Version: 13\r\n\r\n";

// Its answer.
const ACCEPTED: &[u8] = b"HTTP/1.1 101 Switching Protocols\r\nconnection: Upgrade\r\n\
upgrade: websocket\r\nsec-websocket-accept: s3pPLMBiTxaQ9kYGzzhZRbK+xOo=\r\n\r\n";

/// What a client sends, and then hears.
pub(super) enum Turn {
    /// The request of the handshake, and its answer.
    ShakesHands,
    /// A text of at most 125 bytes in a frame, under a mask of zeros, and such a text in a frame.
    Says(&'static str, &'static str),
    /// Bytes, and bytes.
    Sends(&'static [u8], &'static [u8]),
}

/// What a client is, and its turns. It hears no more after them.
pub(super) type Client = (&'static str, &'static [Turn]);

/// A connection to the server, which may still have to open its session.
pub(super) fn connect<R: Net + Clock>(rt: &R, port: u16) -> Option<R::Stream> {
    for _ in 0..1000 {
        if let Ok(stream) = TcpStream::connect(rt, (Ipv4Addr::LOCALHOST, port)) {
            return Some(stream);
        }
        thread::sleep(rt, Duration::from_millis(10));
    }
    None
}

/// Whether the server answers a client so, and then has no more to say.
pub(super) fn is_served<R: Net + Clock>(rt: &R, port: u16, (_, turns): &Client) -> bool {
    match connect(rt, port) {
        Some(mut stream) => is_answered(&mut stream, turns) && is_ended(&mut stream),
        None => false,
    }
}

/// Whether each turn is so.
pub(super) fn is_answered<S: Read + Write>(stream: &mut S, turns: &[Turn]) -> bool {
    for turn in turns {
        if !takes(stream, turn) {
            return false;
        }
    }
    true
}

/// Whether the server has no more to say, once it is told that the client hasn't.
pub(super) fn is_ended<S: Read + OpenStream>(stream: &mut S) -> bool {
    // The server may be gone.
    let _told = stream.shutdown(Shutdown::Write);
    stream.read(&mut [0]).unwrap_or(0) == 0
}

/// Whether a short text is answered by this one, and not by another one that is short too.
pub(super) fn is_told<S: Read + Write>(stream: &mut S, said: &str, answer: &str) -> bool {
    let said_length = said.len().min(125) as u8;
    let mut head = [0; 2];
    let mut heard = [0; 125];
    if !is_heard(stream, &[0x81, 0x80 | said_length, 0, 0, 0, 0], b"")
        || !is_heard(stream, said.as_bytes(), b"")
        || stream.read_exact(&mut head).is_err()
    {
        return false;
    }
    let length = (head[1] as usize).min(125);
    stream.read_exact(&mut heard[..length]).is_ok()
        && heard.get(..length) == Some(answer.as_bytes())
}

// Whether a turn is so.
fn takes<S: Read + Write>(stream: &mut S, turn: &Turn) -> bool {
    match turn {
        Turn::ShakesHands => is_heard(stream, HANDSHAKE, ACCEPTED),
        Turn::Says(said, answer) => {
            let said_length = said.len().min(125) as u8;
            let length = answer.len().min(125) as u8;
            is_heard(stream, &[0x81, 0x80 | said_length, 0, 0, 0, 0], b"")
                && is_heard(stream, said.as_bytes(), &[0x81, length])
                && hears(stream, answer.as_bytes())
        }
        Turn::Sends(sent, heard) => is_heard(stream, sent, heard),
    }
}

// Whether bytes that are sent are answered by these.
fn is_heard<S: Read + Write>(stream: &mut S, sent: &[u8], heard: &[u8]) -> bool {
    stream.write_all(sent).is_ok() && hears(stream, heard)
}

// Whether these bytes come next.
fn hears<S: Read>(stream: &mut S, bytes: &[u8]) -> bool {
    let mut heard = [0];
    for byte in bytes {
        if stream.read_exact(&mut heard).is_err() || heard != [*byte] {
            return false;
        }
    }
    true
}
