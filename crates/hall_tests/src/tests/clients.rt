//! Clients beside one another, over streams that give and take little.

ghost use Rattle.std.specs.Prelude.{◌≡◌, Some, codes};
ghost use Rattle.many_clients.specs.Talker.{IsAtStart};
ghost use Rattle.websocket_server.specs.Messages.{longest_message};

use many_clients::{Client, ReadyStream, TurnEnd, admit, dismiss, serve_all, serve_at};
use slab::Slab;
use std::alloc::{AllocError, Global};
use std::borrow::CowStr;
use std::io::{self, ErrorKind, Read, Write};
use tungstenite::{NoMask, Role, WebSocket, WebSocketConfig};
use websocket_server::{LONGEST_MESSAGE, MessageServer};

// Answers the first text of each connection by a word, the second by another, and the rest by a third: the guest is how many
// texts have come there.
#[derive(Clone, Copy)]
struct Counting;

impl<H> MessageServer<H> for Counting {
    type Guest = u8;

    ghost answers = { λ old guest message answer new guest_after. Unit {0} };

    ghost nobody = { 0 };

    ghost binary_text = { codes "binary" };

    ghost memory_text = { codes "memory" };

    fn serve_message(
        &mut self,
        rt: &H,
        alloc: Global,
        guest: &mut u8,
        message: &[u8],
    ) -> Result<CowStr<'static>, AllocError> {
        let count = *guest;
        *guest = count.saturating_add(1);
        Ok(CowStr::Borrowed(match count {
            0 => "first",
            1 => "second",
            _ => "later",
        }))
    }

    fn binary_answer() -> &'static str {
        "binary"
    }

    fn memory_answer() -> &'static str {
        "memory"
    }

    fn newcomer() -> u8 {
        0
    }
}

// A stream that gives a byte and then would block, and takes a byte and then would block.
#[derive(Drop)]
struct Slow {
    input: &'static [u8],
    at: usize,
    waits: bool,
    full: bool,
    output: Vec<u8>,
}

impl Read for Slow {
    fn read(&mut self, buf: &mut [u8]) -> io::Result<usize> {
        self.waits = !self.waits;
        let rest = self.input.get(self.at..).unwrap_or(&[]);
        if self.waits || rest.is_empty() {
            return Err(io::Error::from(ErrorKind::WouldBlock));
        }
        let count = buf.len().min(1);
        buf[..count].copy_from_slice(&rest[..count]);
        self.at = self.at.saturating_add(count);
        Ok(count)
    }
}

impl Write for Slow {
    fn write(&mut self, buf: &[u8]) -> io::Result<usize> {
        self.full = !self.full;
        if self.full {
            return Err(io::Error::from(ErrorKind::WouldBlock));
        }
        let count = buf.len().min(1);
        if self.output.extend_from_slice(&buf[..count]).is_err() {
            return Err(io::Error::from(ErrorKind::OutOfMemory));
        }
        Ok(count)
    }

    fn flush(&mut self) -> io::Result<()> {
        Ok(())
    }
}

// The longest message of a client here.
fn limits() -> WebSocketConfig
    ensures message { result.max_message_size ≡ Some longest_message }
    ensures frame { result.max_frame_size ≡ Some longest_message }
{
    WebSocketConfig::default()
        .max_message_size(Some(LONGEST_MESSAGE))
        .max_frame_size(Some(LONGEST_MESSAGE))
}

fn socket<S: Drop>(alloc: Global, stream: S) -> WebSocket<S, NoMask>
    ensures { IsAtStart result }
{
    WebSocket::from_partially_read(
        alloc,
        stream,
        NoMask,
        Vec::new(alloc),
        Role::Server,
        Some(limits()),
    )
}

fn slow_stream(alloc: Global, input: &'static [u8]) -> Slow {
    Slow {
        input,
        at: 0,
        waits: false,
        full: false,
        output: Vec::new(alloc),
    }
}

// What was sent to the client at a key.
fn sent(clients: &Slab<Client<Slow, u8>>, key: usize) -> &[u8] {
    match clients.get(key) {
        Some(client) => client.stream().output.as_slice(),
        None => &[],
    }
}

// Two texts as a client sends them, with a mask of zeros (RFC 6455, 5.2).
const TWO_TEXTS: &[u8] = b"\x81\x82\0\0\0\0hi\x81\x80\0\0\0\0";

// A text in two parts with a ping between them, and a binary message.
const IN_PARTS: &[u8] = b"\x01\x81\0\0\0\0h\x89\x81\0\0\0\0p\x80\x81\0\0\0\0i\x82\x80\0\0\0\0";

// Each is answered as the guest of its own connection, however the bytes come and go, and whatever the other sends; and who
// comes to the place of one that went is a guest of its own.
#[test]
fn clients_beside_one_another(rt: HostRuntime) {
    let alloc = rt.alloc();
    let mut clients = Slab::new(alloc);
    let mut server = Counting;
    let one = admit::<HostRuntime, _, Counting>(
        &mut clients,
        socket(alloc, slow_stream(alloc, TWO_TEXTS)),
    );
    let other = admit::<HostRuntime, _, Counting>(
        &mut clients,
        socket(alloc, slow_stream(alloc, IN_PARTS)),
    );
    let (Ok(one), Ok(other)) = (one, other) else {
        assert!(rt; false, "no memory");
        drop(clients);
        return;
    };
    for _ in 0..100 {
        serve_all(&rt, alloc, &mut clients, &[one, other, 7], &mut server);
    }
    assert!(rt; sent(&clients, one) == b"\x81\x05first\x81\x06second".as_slice());
    assert!(rt; sent(&clients, other) == b"\x8a\x01p\x81\x05first\x81\x06binary".as_slice());
    dismiss(&mut clients, one);
    assert!(rt; serve_at(&rt, alloc, &mut clients, one, &mut server).is_none());
    let next = admit::<HostRuntime, _, Counting>(
        &mut clients,
        socket(alloc, slow_stream(alloc, TWO_TEXTS)),
    );
    assert!(rt; next == Ok(one));
    for _ in 0..100 {
        serve_all(&rt, alloc, &mut clients, &[one], &mut server);
    }
    assert!(rt; sent(&clients, one) == b"\x81\x05first\x81\x06second".as_slice());
    drop(clients);
}

// A stream of one text message in empty parts, which doesn't end.
#[derive(Drop)]
struct Flood {
    begun: bool,
    at: usize,
}

impl Flood {
    fn next(&mut self) -> u8 {
        let byte = match self.at {
            0 => u8::from(!self.begun),
            1 => 0x80,
            _ => 0,
        };
        self.begun = true;
        self.at = if self.at < 5 { self.at + 1 } else { 0 };
        byte
    }
}

impl Read for Flood {
    fn read(&mut self, buf: &mut [u8]) -> io::Result<usize> {
        for byte in buf.iter_mut() {
            *byte = self.next();
        }
        Ok(buf.len())
    }
}

impl Write for Flood {
    fn write(&mut self, buf: &[u8]) -> io::Result<usize> {
        Ok(buf.len())
    }

    fn flush(&mut self) -> io::Result<()> {
        Ok(())
    }
}

// Whoever sends parts of a message for ever keeps a thread no longer than its share.
#[test]
fn a_flood_of_empty_parts(rt: HostRuntime) {
    let alloc = rt.alloc();
    let mut clients = Slab::new(alloc);
    let mut server = Counting;
    let stream = ReadyStream::new(Flood {
        begun: false,
        at: 0,
    });
    let Ok(key) = admit::<HostRuntime, _, Counting>(&mut clients, socket(alloc, stream)) else {
        assert!(rt; false, "no memory");
        drop(clients);
        return;
    };
    for _ in 0..3 {
        let end = serve_at(&rt, alloc, &mut clients, key, &mut server);
        assert!(rt; end == Some(TurnEnd::Reading));
        let Some(client) = clients.get(key) else {
            drop(clients);
            return;
        };
        assert!(rt; client.stream().is_hungry());
        client.stream().begin();
    }
    drop(clients);
}
