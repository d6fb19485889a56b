//! Lines as they stand in a log, and logs that can't be written.

use event_log::{
    AnsweredCommand, BatchFault, Event, EventLog, Guest, LogOutcome, ToldLog, log_line,
};
use hall_terms::ClientEnd;
use session_commands::{CommandWord, Refusal};
use session_roles::Operation;
use std::alloc::Global;
use std::io::{self, ErrorKind, Write};
use std::test::Fail;
use std::time::Duration;
use user_names::Name;

// 2026-11-27T18:13:55Z, and the first and the last second that have a text, by the command date.
static MOMENTS: &[(Option<u64>, &str)] = &[
    (Some(1_795_803_235), "2026-11-27T18:13:55Z"),
    (Some(0), "1970-01-01T00:00:00Z"),
    (Some(951_827_696), "2000-02-29T12:34:56Z"),
    (Some(253_402_300_799), "9999-12-31T23:59:59Z"),
    (Some(253_402_300_800), "-"),
    (Some(u64::MAX), "-"),
    (None, "-"),
];

// Whether the line of an event at a time is this.
fn is_line(alloc: Global, at: Option<u64>, event: &Event<'_>, moment: &str, told: &str) -> bool {
    match (
        log_line(alloc, at, event),
        format!(in alloc; "{moment} {told}\n"),
    ) {
        (Ok(line), Ok(wanted)) => line.as_slice() == wanted.as_bytes(),
        _ => false,
    }
}

// Whether the line of a batch at a time is this.
fn is_batch_line(alloc: Global, at: Option<u64>, moment: &str) -> bool {
    let answers = [AnsweredCommand::Entered(CommandWord::Of(Operation::Enter))];
    match Name::new("ann") {
        Ok(ann) => {
            let event = Event::Answered(ann, 1, 1, &answers);
            is_line(
                alloc,
                at,
                &event,
                moment,
                "batch ann first=1 last=1 Enter=ok",
            )
        }
        Err(_) => false,
    }
}

#[test]
fn times_are_written(rt: HostRuntime) {
    for &(at, moment) in MOMENTS {
        assert!(rt; is_batch_line(rt.alloc(), at, moment), "{moment}");
    }
}

#[test]
fn events_are_written(rt: HostRuntime) -> Result<(), Fail> {
    let (Ok(ann), Ok(odd)) = (Name::new("ann"), Name::new("a n\n\u{f8}")) else {
        panic!(rt; "names of a few bytes");
    };
    let answers = [
        AnsweredCommand::Entered(CommandWord::Of(Operation::Enter)),
        AnsweredCommand::Refused(CommandWord::Of(Operation::Confirm), Refusal::Mismatch),
        AnsweredCommand::Refused(CommandWord::Of(Operation::Enter), Refusal::Spoiled(odd)),
    ];
    let rows = [
        (Event::SignedIn(ann), "signed_in ann"),
        (Event::NotSignedIn(Guest::User(ann)), "not_signed_in ann"),
        (Event::NotSignedIn(Guest::Nobody), "not_signed_in -"),
        (
            Event::Answered(ann, 17, 17, &answers),
            "batch ann first=17 last=17 Enter=ok Confirm=Mismatch Enter=Spoiled",
        ),
        (
            Event::Unanswered(ann, 2, BatchFault::NotKept),
            "batch_undone ann commands=2 why=NotKept",
        ),
        (
            Event::Ended(Guest::User(odd), ClientEnd::Late, Duration::from_secs(310)),
            "ended a?n??? why=Late ms=310000",
        ),
        (
            Event::TableSolved(3, Some(Duration::from_millis(1240))),
            "table_solved board=3 ms=1240",
        ),
        (
            Event::CostsFound(2, 14, Some(Duration::from_micros(999))),
            "costs_found table=2 board=14 ms=0",
        ),
        (
            Event::NotFound(128, Some(Duration::from_millis(5))),
            "not_found board=128 ms=5",
        ),
        (Event::NotFound(128, None), "not_found board=128 ms=-"),
    ];
    for (event, told) in &rows {
        assert!(rt;
            is_line(rt.alloc(), Some(0), event, "1970-01-01T00:00:00Z", told),
            "{told}"
        );
    }
    Ok(())
}

/// A writer that has room for so many bytes, fails once, and then has room.
#[derive(Drop)]
struct Full {
    held: Vec<u8>,
    room: usize,
}

impl Write for Full {
    fn write(&mut self, buf: &[u8]) -> io::Result<usize> {
        if self.room == 0 {
            self.room = usize::MAX;
            return Err(io::Error::from(ErrorKind::StorageFull));
        }
        let count = buf.len().min(self.room);
        self.room = self.room.saturating_sub(count);
        self.held.write(&buf[..count])
    }

    fn flush(&mut self) -> io::Result<()> {
        Ok(())
    }
}

// Adds the line of a batch to a log, without a time.
fn add_batch<W: Write + Drop>(alloc: Global, log: &mut EventLog<W>) -> Option<LogOutcome> {
    let answers = [AnsweredCommand::Entered(CommandWord::Of(Operation::Enter))];
    match Name::new("ann") {
        Ok(ann) => Some(log.add(alloc, None, &Event::Answered(ann, 1, 1, &answers))),
        Err(_) => None,
    }
}

#[test]
fn a_log_goes_on_behind_a_line_that_was_cut_off(rt: HostRuntime) {
    let mut log = EventLog::new(Full {
        held: Vec::new(rt.alloc()),
        room: 4,
    });
    assert!(rt; add_batch(rt.alloc(), &mut log) == Some(LogOutcome::FirstUnwritten));
    assert!(rt; add_batch(rt.alloc(), &mut log) == Some(LogOutcome::Written));
    log.writer.room = 0;
    assert!(rt; add_batch(rt.alloc(), &mut log) == Some(LogOutcome::Unwritten));
    assert!(rt; add_batch(rt.alloc(), &mut log) == Some(LogOutcome::Written));
    assert!(rt;
        log.writer.held.as_slice()
            == b"- ba\n- batch ann first=1 last=1 Enter=ok\n\n- batch ann first=1 last=1 Enter=ok\n".as_slice()
    );
}

// Adds the line of a batch to a log that is told of, without a time.
fn add_told<W: Write + Drop, E: Write + Drop>(alloc: Global, log: &mut ToldLog<W, E>) {
    let answers = [AnsweredCommand::Entered(CommandWord::Of(Operation::Enter))];
    if let Ok(ann) = Name::new("ann") {
        log.add(alloc, None, &Event::Answered(ann, 1, 1, &answers));
    }
}

#[test]
fn a_log_that_fails_is_told_once(rt: HostRuntime) {
    let full = Full {
        held: Vec::new(rt.alloc()),
        room: 0,
    };
    let mut log = ToldLog::new(full, Vec::new(rt.alloc()));
    for room in [40, 0, usize::MAX, 0, 4] {
        log.log.writer.room = room;
        add_told(rt.alloc(), &mut log);
    }
    assert!(rt;
        log.log.writer.held.as_slice()
            == b"- batch ann first=1 last=1 Enter=ok\n\n- batch ann first=1 last=1 Enter=ok\n\n- b".as_slice()
    );
    assert!(rt;
        log.errors.as_slice()
            == b"bridge_server: LogUnwritten (an event isn't in the log; this is told once)\n".as_slice()
    );
}
