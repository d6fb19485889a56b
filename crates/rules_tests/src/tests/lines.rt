//! Lines read from a reader that fails once, and texts written to a writer that stops once.

use script_lines::{ByteSource, LineEnd, ReadFault, read_line, write_text};
use std::alloc::Global;
use std::io;
use std::io::{ErrorKind, Write};
use test_devices::FailingReader;

/// Whether the next line that is read, of which so many bytes are wanted, ends so and has this text.
fn reads<R: ByteSource>(
    reader: &mut R,
    line: &mut Vec<u8>,
    most: usize,
    left: &mut usize,
    end: Result<LineEnd, ReadFault>,
    text: &[u8],
) -> bool {
    read_line(reader, line, most, left) == end && line.as_slice() == text
}

/// 100,000 bytes: every value in turn, again and again, with a CR in place of each LF. Fewer, where there is no room.
fn long_text(alloc: Global) -> Vec<u8> {
    let mut text = Vec::new(alloc);
    for i in 0usize..100_000 {
        let byte = (i % 256) as u8;
        let _ = text.push(if byte == b'\n' { b'\r' } else { byte });
    }
    text
}

/// Whether that text is one line, of which so many bytes are kept, and one more shows whether there are more.
fn keeps(line: &mut Vec<u8>, text: &[u8], most: usize) -> bool {
    let mut input = text;
    let kept = text.get(..most.saturating_add(1)).unwrap_or(text);
    reads(
        &mut input,
        line,
        most,
        &mut 100_001,
        Ok(LineEnd::EndOfInput),
        kept,
    )
}

/// Whether it is so where all of its bytes are wanted, and where 65,536 are.
fn keeps_long_text(alloc: Global) -> bool {
    let text = long_text(alloc);
    let mut line = Vec::new(alloc);
    text.len() == 100_000 && keeps(&mut line, &text, 100_000) && keeps(&mut line, &text, 65_536)
}

const FAULT: Result<LineEnd, ReadFault> = Err(ReadFault::Input);

/// Whether the fourth byte of an input that may have three is a fault, and no want of memory.
fn is_too_long(alloc: Global) -> bool {
    let mut line = Vec::new(alloc);
    let mut input: &[u8] = b"abcd";
    reads(&mut input, &mut line, 3, &mut 3, FAULT, b"abc")
}

/// What is read before the fault, and after it.
static CUTS: [(&[u8], &[u8]); 4] = [(b"", b"abc"), (b"a", b"bc"), (b"ab", b"c"), (b"abc", b"")];

/// Whether a read of "abc" and an LF that fails so after its first bytes keeps them, and the next call goes on after
/// them.
fn goes_on(alloc: Global, fault: ErrorKind, before: &[u8], after: &[u8]) -> bool {
    let mut line = Vec::new(alloc);
    let mut left = 100;
    let mut reader = FailingReader {
        bytes: b"abc\n",
        good: before.len(),
        fault,
    };
    reads(&mut &mut reader, &mut line, 3, &mut left, FAULT, before)
        && reads(
            &mut &mut reader,
            &mut line,
            3,
            &mut left,
            Ok(LineEnd::LineFeed),
            after,
        )
}

#[test]
fn reads_lines_and_goes_on_after_faults(rt: HostRuntime) {
    assert!(rt; keeps_long_text(rt.alloc()));
    assert!(rt; is_too_long(rt.alloc()));
    for (before, after) in &CUTS {
        assert!(rt; goes_on(rt.alloc(), ErrorKind::Interrupted, before, after));
        assert!(rt; goes_on(rt.alloc(), ErrorKind::WouldBlock, before, after));
    }
}

/// A writer that takes a byte a call. One call fails, or takes nothing where there is no fault; the next ones go on.
#[derive(Drop)]
struct StopsOnce {
    calls: usize,
    stop: usize,
    fault: Option<ErrorKind>,
}

impl Write for StopsOnce {
    fn write(&mut self, buf: &[u8]) -> io::Result<usize> {
        self.calls = self.calls.saturating_add(1);
        if self.calls != self.stop {
            return Ok(buf.len().min(1));
        }
        match self.fault {
            Some(kind) => Err(io::Error::from(kind)),
            None => Ok(0),
        }
    }

    fn flush(&mut self) -> io::Result<()> {
        Ok(())
    }
}

/// How the writer stops.
static FAULTS: [Option<ErrorKind>; 3] = [
    Some(ErrorKind::Interrupted),
    Some(ErrorKind::WouldBlock),
    None,
];

/// Whether a text of fifteen bytes is written, in as many calls, where none of them fails; and up to the call that
/// does.
fn stops(stop: usize, fault: Option<ErrorKind>) -> bool {
    let mut writer = StopsOnce {
        calls: 0,
        stop,
        fault,
    };
    let is_whole = write_text(&mut writer, b"a line of text\n").is_ok();
    is_whole == (stop > 15) && writer.calls == stop.min(15)
}

/// The first call fails, the second, and so on past the last.
#[test]
fn a_write_that_stops_once_is_a_fault(rt: HostRuntime) {
    for fault in &FAULTS {
        for stop in 1..20 {
            assert!(rt; stops(stop, *fault));
        }
    }
}
