//! Those who talk: floods, greetings that are refused, and who is late.

ghost use Rattle.std.specs.Prelude.{codes, false};

use hall_door::Room;
use hall_terms::{ClientEnd, ClientTime};
use hall_turns::{
    HallServer, Newcomer, RoundTerms, Talkers, end_late, let_in, serve_listed, serve_talker,
};
use many_clients::ReadyStream;
use std::alloc::{AllocError, Global};
use std::borrow::CowStr;
use std::cell::Cell;
use std::io::{self, ErrorKind, Read, Write};
use websocket_server::MessageServer;

// Answers each text by one word. "in" signs in, and "no" is a greeting that is refused. Of the last connection that ended it knows
// whether somebody was signed in, why it ended, and how old it was.
#[derive(Drop)]
struct Words {
    refusals: u64,
    ended: Cell<Option<(bool, ClientEnd, u64)>>,
}

impl Words {
    fn new() -> Words {
        Words {
            refusals: 0,
            ended: Cell::new(None),
        }
    }
}

impl<H> MessageServer<H> for Words {
    type Guest = bool;

    ghost answers = { λ old guest message answer new guest_after. Unit {0} };

    ghost nobody = { false };

    ghost binary_text = { codes "binary" };

    ghost memory_text = { codes "memory" };

    fn serve_message(
        &mut self,
        rt: &H,
        alloc: Global,
        guest: &mut bool,
        message: &[u8],
    ) -> Result<CowStr<'static>, AllocError> {
        if message == b"in".as_slice() {
            *guest = true;
        }
        if message == b"no".as_slice() {
            self.refusals = self.refusals.wrapping_add(1);
        }
        Ok(CowStr::Borrowed("ok"))
    }

    fn binary_answer() -> &'static str {
        "binary"
    }

    fn memory_answer() -> &'static str {
        "memory"
    }

    fn newcomer() -> bool {
        false
    }
}

impl<H> HallServer<H> for Words {
    fn is_signed_in(guest: &bool) -> bool {
        *guest
    }

    fn refusals(&self) -> u64 {
        self.refusals
    }

    fn hear_end(&self, _rt: &H, guest: &bool, why: ClientEnd, after: u64) {
        self.ended.set(Some((*guest, why, after)));
    }
}

// A stream that gives what it has, again and again where it is told to, and then would block.
#[derive(Drop)]
struct Source {
    input: Vec<u8>,
    at: usize,
    repeats: bool,
    output: Vec<u8>,
}

impl Read for Source {
    fn read(&mut self, buf: &mut [u8]) -> io::Result<usize> {
        if self.repeats && self.at >= self.input.len() {
            self.at = 0;
        }
        let rest = self.input.as_slice().get(self.at..).unwrap_or(&[]);
        if rest.is_empty() {
            return Err(io::Error::from(ErrorKind::WouldBlock));
        }
        let count = buf.len().min(rest.len());
        buf[..count].copy_from_slice(&rest[..count]);
        self.at = self.at.saturating_add(count);
        Ok(count)
    }
}

impl Write for Source {
    fn write(&mut self, buf: &[u8]) -> io::Result<usize> {
        if self.output.extend_from_slice(buf).is_err() {
            return Err(io::Error::from(ErrorKind::OutOfMemory));
        }
        Ok(buf.len())
    }

    fn flush(&mut self) -> io::Result<()> {
        Ok(())
    }
}

// Frames of a client, with a mask of zeros (RFC 6455, 5.2): a text, one that signs in, one that is refused, an empty part that
// isn't the last, a ping.
const TEXT: &[u8] = b"\x81\x82\0\0\0\0hi";

const IN: &[u8] = b"\x81\x82\0\0\0\0in";

const REFUSED: &[u8] = b"\x81\x82\0\0\0\0no\x81\x82\0\0\0\0hi";

const PARTS: &[u8] = b"\x00\x80\0\0\0\0";

const PING: &[u8] = b"\x89\x80\0\0\0\0";

const ANSWER: &[u8] = b"\x81\x02ok";

fn at(now: u64) -> RoundTerms {
    RoundTerms { now, idle: 300 }
}

// How often what is sent for ever stands in a source: so often that it is as long as some reads, each of which finds as much as it
// asks for.
const COPIES: usize = 512;

// Lets in a client that sends this, once or for ever, after these bytes that came with its request.
fn come<'a>(
    alloc: Global,
    room: &'a Room,
    talkers: &mut Talkers<'a, Source, bool>,
    first: &[u8],
    input: &'static [u8],
    repeats: bool,
) -> Option<usize> {
    let mut bytes = Vec::new(alloc);
    for _ in 0..if repeats { COPIES } else { 1 } {
        if bytes.extend_from_slice(input).is_err() {
            return None;
        }
    }
    let stream = ReadyStream::new(Source {
        input: bytes,
        at: 0,
        repeats,
        output: Vec::new(alloc),
    });
    let (Ok(unread), Some(place)) = (first.to_vec(alloc), room.take()) else {
        return None;
    };
    let newcomer = Newcomer {
        stream,
        unread,
        place,
        time: ClientTime::accepted(0),
    };
    let server = Words::new();
    let_in::<HostRuntime, Source, Words>(alloc, talkers, &server, newcomer, at(0)).ok()
}

// How many answers a client was sent, or none where it is gone.
fn answers(talkers: &Talkers<'_, Source, bool>, key: usize) -> Option<usize> {
    match talkers.clients.get(key) {
        Some(client) => Some(client.stream().ready().stream().output.len() / ANSWER.len()),
        None => None,
    }
}

// Whoever sends empty parts for ever, or messages for ever, has its share in a round, goes on in the next one, and keeps nobody.
#[test]
fn floods(rt: HostRuntime) {
    let alloc = rt.alloc();
    let room = Room::new(1_000);
    let mut talkers = Talkers::new(alloc);
    let mut server = Words::new();
    let parts = come(alloc, &room, &mut talkers, b"\x01\x80\0\0\0\0", PARTS, true);
    let texts = come(alloc, &room, &mut talkers, b"", TEXT, true);
    let other = come(alloc, &room, &mut talkers, TEXT, b"", false);
    let (Some(parts), Some(texts), Some(other)) = (parts, texts, other) else {
        assert!(rt; false, "no memory");
        drop(talkers);
        return;
    };
    for key in [parts, texts, other] {
        serve_talker(&rt, alloc, &mut talkers, key, at(0), &mut server);
    }
    assert!(rt; talkers.has_listed());
    assert!(rt; answers(&talkers, texts) == Some(16) && answers(&talkers, other) == Some(1));
    serve_listed(&rt, alloc, &mut talkers, at(1), &mut server);
    assert!(rt; talkers.has_listed());
    assert!(rt; answers(&talkers, texts) == Some(32) && answers(&talkers, parts) == Some(0));
    drop(talkers);
}

// After a greeting that is refused a client isn't read for a second, and then it is.
#[test]
fn a_guess(rt: HostRuntime) {
    let alloc = rt.alloc();
    let room = Room::new(1_000);
    let mut talkers = Talkers::new(alloc);
    let mut server = Words::new();
    let Some(key) = come(alloc, &room, &mut talkers, b"", REFUSED, false) else {
        assert!(rt; false, "no memory");
        drop(talkers);
        return;
    };
    for (now, count) in [(0, 1), (500, 1), (999, 1), (1_000, 2)] {
        end_late(&rt, &mut talkers, &server, at(now));
        serve_listed(&rt, alloc, &mut talkers, at(now), &mut server);
        talkers.wake(key, true, true, false);
        serve_talker(&rt, alloc, &mut talkers, key, at(now), &mut server);
        assert!(rt; answers(&talkers, key) == Some(count), "at {now}");
    }
    drop(talkers);
}

// A stranger is ended ten seconds after its handshake, whatever it sends; who has signed in has longer, and each place is free
// again.
#[test]
fn strangers_are_late(rt: HostRuntime) {
    let alloc = rt.alloc();
    let room = Room::new(20);
    let mut talkers = Talkers::new(alloc);
    let mut server = Words::new();
    let stranger = come(alloc, &room, &mut talkers, b"", PING, true);
    let guest = come(alloc, &room, &mut talkers, IN, b"", false);
    let (Some(stranger), Some(guest)) = (stranger, guest) else {
        assert!(rt; false, "no memory");
        drop(talkers);
        return;
    };
    for now in [0, 5_000, 9_999] {
        end_late(&rt, &mut talkers, &server, at(now));
        for key in [stranger, guest] {
            serve_talker(&rt, alloc, &mut talkers, key, at(now), &mut server);
        }
        assert!(rt; answers(&talkers, stranger).is_some() && answers(&talkers, guest).is_some());
    }
    end_late(&rt, &mut talkers, &server, at(10_000));
    assert!(rt; answers(&talkers, stranger).is_none() && answers(&talkers, guest).is_some());
    assert!(rt; server.ended.get() == Some((false, ClientEnd::Late, 10_000)));
    end_late(&rt, &mut talkers, &server, at(300_000));
    assert!(rt; answers(&talkers, guest).is_none());
    assert!(rt; server.ended.get() == Some((true, ClientEnd::Late, 300_000)));
    let (one, other) = (room.take(), room.take());
    assert!(rt; one.is_some() && other.is_some());
    drop(talkers);
}
