//! The door: handshakes, refusals, and places.

use hall_door::{Door, HallPage, HallPlace, Room};
use http_server::{Config, Connection};
use std::alloc::Global;
use std::hash::RandomState;

// A handshake with the key of RFC 6455, 1.3, to which further lines and the empty one are to be added.
const HANDSHAKE: &str =
    "GET / HTTP/1.1\r\nHost: a\r\nConnection: keep-alive, Upgrade\r\nUpgrade: WebSocket\r\n\
    Sec-WebSocket-Key: dGhlIHNhbXBsZSBub25jZQ==\r\nSec-WebSocket-Version: 13\r\n";

const LET_IN: &str =
    "HTTP/1.1 101 Switching Protocols\r\nconnection: Upgrade\r\nupgrade: websocket\r\n\
    sec-websocket-accept: s3pPLMBiTxaQ9kYGzzhZRbK+xOo=\r\n\r\n";

// How many writes an answer takes at most: the vector takes whatever it is given.
const MOST_WRITES: u32 = 4;

// Whether a connection takes some bytes and writes what a door answers.
fn is_answered<'a>(
    connection: &mut Connection,
    door: &mut Door<'a, HallPage<'a>>,
    pieces: [&str; 2],
    sent: &mut Vec<u8>,
) -> bool {
    for piece in pieces {
        let mut bytes = piece.as_bytes();
        if connection.read_from(&mut bytes).is_err() {
            return false;
        }
        connection.advance(door);
    }
    for _ in 0..MOST_WRITES {
        if connection.wants_write() && connection.write_to(sent).is_err() {
            return false;
        }
    }
    true
}

// What a door answers some bytes. The connection is let go by a call: any other way out takes it apart field by field.
fn answer<'a>(
    rt: &HostRuntime,
    door: &mut Door<'a, HallPage<'a>>,
    pieces: [&str; 2],
) -> Option<Vec<u8>> {
    let alloc = rt.alloc();
    let Ok(keys) = RandomState::new(rt) else {
        return None;
    };
    let mut connection = Connection::new(alloc, keys, Config::default());
    let mut sent = Vec::new(alloc);
    let is_whole = is_answered(&mut connection, door, pieces, &mut sent);
    drop(connection);
    if is_whole { Some(sent) } else { None }
}

// Whether an answer begins so.
fn begins(answer: &Option<Vec<u8>>, front: &str) -> bool {
    match answer {
        Some(bytes) => bytes.as_slice().starts_with(front.as_bytes()),
        None => false,
    }
}

// Whoever asks as RFC 6455, 4.2.1 has it is let in, and gets the answer of its section 1.3. Another origin, and no origin
// where one has to be named, are told apart.
#[test]
fn handshakes(rt: HostRuntime) {
    let room = Room::new(100);
    let rows = [
        (HANDSHAKE, "\r\n", LET_IN),
        (HANDSHAKE, "Origin: https://a.example\r\n\r\n", LET_IN),
        (
            HANDSHAKE,
            "Origin: https://b.example\r\n\r\n",
            "HTTP/1.1 403 Forbidden\r\n",
        ),
        (
            "GET /session HTTP/1.1\r\nHost: a\r\n",
            "\r\n",
            "HTTP/1.1 426 Upgrade Required\r\n",
        ),
        (
            "POST /session HTTP/1.1\r\nHost: a\r\n",
            "\r\n",
            "HTTP/1.1 405 Method Not Allowed\r\n",
        ),
        (
            "GET /session HTTP/1.1\r\nHost: a\r\nConnection: Upgrade\r\nUpgrade: websocket\r\n",
            "Sec-WebSocket-Version: 13\r\nSec-WebSocket-Key: dGhlIHNhbXBsZQ==\r\n\r\n",
            "HTTP/1.1 400 Bad Request\r\n",
        ),
        (
            "GET / HTTP/1.1\r\nHost: a\r\nConnection: Upgrade\r\nUpgrade: websocket\r\n",
            "Sec-WebSocket-Version: 8\r\nSec-WebSocket-Key: dGhlIHNhbXBsZSBub25jZQ==\r\n\r\n",
            "HTTP/1.1 426 Upgrade Required\r\nupgrade: websocket\r\nsec-websocket-version: 13\r\n",
        ),
        (
            "GET / HTTP/1.1\r\nHost: a\r\n",
            "\r\n",
            "HTTP/1.1 404 Not Found\r\n",
        ),
    ];
    for (front, rest, wanted) in rows {
        let mut door = Door::new(
            rt.alloc(),
            Some("https://a.example"),
            &room,
            HallPage::new(None),
        );
        let got = answer(&rt, &mut door, [front, rest]);
        assert!(rt; begins(&got, wanted), "{front}{rest}");
        assert!(rt;
            door.take_place().is_some() == (wanted == LET_IN),
            "{front}{rest}"
        );
    }
}

// Of ten places one is a stranger's: a second one is told that there is none, until the first has signed in or gone.
#[test]
fn a_full_room(rt: HostRuntime) {
    let room = Room::new(10);
    let mut door = Door::new(rt.alloc(), None, &room, HallPage::new(None));
    assert!(rt; begins(&answer(&rt, &mut door, [HANDSHAKE, "\r\n"]), LET_IN));
    let first = door.take_place();
    let full = "HTTP/1.1 503 Service Unavailable\r\n";
    assert!(rt; begins(&answer(&rt, &mut door, [HANDSHAKE, "\r\n"]), full));
    sign_in(&first);
    assert!(rt; begins(&answer(&rt, &mut door, [HANDSHAKE, "\r\n"]), LET_IN));
    let second = door.take_place();
    assert!(rt; begins(&answer(&rt, &mut door, [HANDSHAKE, "\r\n"]), full));
    drop(second);
    assert!(rt; begins(&answer(&rt, &mut door, [HANDSHAKE, "\r\n"]), LET_IN));
    drop(first);
}

fn sign_in(place: &Option<HallPlace<'_>>) {
    if let Some(place) = place {
        place.tell(true);
    }
}

// Ten who have signed in fill ten places.
#[test]
fn all_places(rt: HostRuntime) {
    let room = Room::new(10);
    let mut places = Vec::new(rt.alloc());
    for _ in 0..10 {
        let place = room.take();
        sign_in(&place);
        assert!(rt; place.is_some());
        if places.push(place).is_err() {
            assert!(rt; false, "no memory");
        }
    }
    assert!(rt; room.take().is_none());
    drop(places.pop());
    assert!(rt; room.take().is_some());
}
