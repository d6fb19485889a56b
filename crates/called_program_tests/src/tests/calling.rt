//! The program as it is called: its words, its streams and its statuses.

use super::devices::FailingWriter;
use super::running::{Ending, ends, status_of};
use super::session::{script_of, session, session_alone};
use called_program::run_program;
use event_log::LogFiles;
use journal_store::JournalFiles;
use std::io::{self, ErrorKind};
use std::net::Net;
use std::random::RandomSource;
use std::rt::Files;
use std::sync::Wait;
use std::thread::Threads;
use std::time::Clock;

const MISSING: Ending = (2, "", "error: the following required arguments were");

const BAD_VALUE: Ending = (2, "", "error: invalid value ");

const HELP: Ending = (
    0,
    "Serves a session of duplicate bridge while it is played\n\nUsage: bridge_server",
    "",
);

const SCRIPT_HELP: Ending = (
    0,
    "Answers a script on standard input, line by line\n\nUsage: bridge_server script",
    "",
);

const SERVE_HELP: Ending = (
    0,
    "Serves clients over WebSockets\n\nUsage: bridge_server serve",
    "",
);

const AUDIT_HELP: Ending = (
    0,
    "Tells the audit of a journal, a line for each entry\n\nUsage: bridge_server audit",
    "",
);

const COPY_HELP: Ending = (
    0,
    "Copies a journal that no server has open\n\nUsage: bridge_server copy",
    "",
);

const CHECK_HELP: Ending = (
    0,
    "Says why a session isn't opened, and where, or that it opens\n\nUsage: bridge_server check",
    "",
);

const PREPARE_HELP: Ending = (
    0,
    "Makes a folder with a session object, the tokens of its people, and cards to print\n\nUsage: bridge_server prepare",
    "",
);

const VERSION_TOLD: Ending = (0, "bridge_server 0.", "");

// What is said of an empty file.
const LOOKED_AT: Ending = (1, "Malformed: this is no JSON object in UTF-8, ", "");

// There is no journal.
const NO_JOURNAL: Ending = (1, "", "bridge_server: NotAJournal\n");

// A journal can't be read.
const UNREAD_JOURNAL: Ending = (3, "", "bridge_server: JournalUnread\n");

const MALFORMED: Ending = (1, "", "bridge_server: Malformed\n");

// The session's deals are nowhere.
const WITHOUT_DEALS: Ending = (1, "", "bridge_server: BadField\n");

// A file isn't there, is a folder, or is too long.
const MISSING_FILE: Ending = (
    3,
    "",
    "bridge_server: Unread (/nothing: there is no such file or folder)\n",
);

const FOLDER: Ending = (3, "", "bridge_server: Unread (/: it is a folder)\n");

const TOO_LONG: Ending = (3, "", "bridge_server: Unread (/dev/zero: it is too long)\n");

// Words by which nothing is run, and how the program ends: they aren't understood, they ask for help, or their files
// are no session.
static WORDS: &[(&str, Ending)] = &[
    ("", (2, "", "error: 'bridge_server' requires a subcommand")),
    ("Script", (2, "", "error: unrecognized subcommand 'Script'")),
    (
        "scripts",
        (2, "", "error: unrecognized subcommand 'scripts'"),
    ),
    ("-script", (2, "", "error: unexpected argument '-s'")),
    (
        "script script",
        (2, "", "error: unexpected argument 'script'"),
    ),
    (
        "script again",
        (2, "", "error: unexpected argument 'again'"),
    ),
    ("serve", MISSING),
    ("serve --session s --deals d", MISSING),
    ("serve --session s --port 1", MISSING),
    ("serve --deals d --port 1", MISSING),
    // A journal is named, and one file alone; or no port.
    ("serve --journal j --session s --port 1", MISSING),
    ("serve --journal j --deals d --port 1", MISSING),
    ("serve --journal j", MISSING),
    ("audit", MISSING),
    ("copy --journal j", MISSING),
    ("copy --to k", MISSING),
    ("check", MISSING),
    ("prepare", MISSING),
    (
        "prepare --people p --deals d --to t --rounds 1 --per-set 1",
        MISSING,
    ),
    (
        "prepare --people p --deals d --to t --rounds 1 --per-set 1 --tables 256",
        BAD_VALUE,
    ),
    ("--version", VERSION_TOLD),
    ("prepare --help", PREPARE_HELP),
    ("check --deals d", MISSING),
    (
        "serve --journal j --journal k --port 1",
        (2, "", "error: the argument '--journal"),
    ),
    (
        "serve --port 1 --journal",
        (2, "", "error: a value is required for '--journal"),
    ),
    // A value isn't an option that is named.
    (
        "serve --session=--journal --port 1",
        (2, "", "error: the following required arguments were"),
    ),
    (
        "audit --journal j --to k",
        (2, "", "error: unexpected argument '--to'"),
    ),
    ("serve --session s --deals d --port 0", BAD_VALUE),
    ("serve --session s --deals d --port 65536", BAD_VALUE),
    ("serve --session s --deals d --port ws", BAD_VALUE),
    (
        "serve --session s --deals d --port 1 --listen here",
        (2, "", "error: --listen takes an IP address, as 0.0.0.0"),
    ),
    (
        "serve --session s --deals d --port 1 --displays 0",
        BAD_VALUE,
    ),
    (
        "serve --session s --deals d --port 1 --displays 33",
        BAD_VALUE,
    ),
    (
        "serve --session s --deals d --port 1 --workers 17",
        BAD_VALUE,
    ),
    (
        "serve --session s --deals d --port 1 --connections 1000001",
        BAD_VALUE,
    ),
    ("serve --session s --deals d --port 1 --idle 0", BAD_VALUE),
    (
        "serve --session s --deals d --port 1 --idle 86401",
        BAD_VALUE,
    ),
    (
        "serve --session s --deals d --port 1 --origin",
        (2, "", "error: a value is required for '--origin"),
    ),
    (
        "serve --session s --deals d --port 1 --origin a --origin b",
        (2, "", "error: the argument '--origin"),
    ),
    (
        "serve --session s --deals d --port 1 --connections -1",
        (2, "", "error: unexpected argument '-1'"),
    ),
    (
        "serve --session s --deals d --port 1 --port 2",
        (2, "", "error: the argument '--port"),
    ),
    (
        "serve --session s --deals d --port 1 --host h",
        (2, "", "error: unexpected argument '--host'"),
    ),
    (
        "serve --session s --deals d --port 1 again",
        (2, "", "error: unexpected argument 'again'"),
    ),
    (
        "serve --session --deals d --port 1",
        (2, "", "error: a value is required for '--session"),
    ),
    ("--help", HELP),
    ("-h", HELP),
    ("help", HELP),
    ("help serve", SERVE_HELP),
    ("serve --help", SERVE_HELP),
    ("serve -h", SERVE_HELP),
    ("script -h", SCRIPT_HELP),
    ("serve --journal j -h", SERVE_HELP),
    ("audit -h", AUDIT_HELP),
    ("copy -h", COPY_HELP),
    ("check -h", CHECK_HELP),
    // There is no such file, or it is a folder, or too long. Both files are read before either is judged.
    (
        "serve --session /nothing --deals /nothing --port 1",
        MISSING_FILE,
    ),
    ("serve --session / --deals /dev/null --port 1", FOLDER),
    (
        "serve --session /dev/zero --deals /dev/null --port 1",
        TOO_LONG,
    ),
    (
        "serve --session /dev/null --deals /nothing --port 1",
        MISSING_FILE,
    ),
    (
        "serve --session /dev/null --deals /dev/null --port 1",
        MALFORMED,
    ),
    // The files are read and judged before the journal is opened.
    (
        "serve --session /dev/null --deals /nothing --journal / --port 1",
        MISSING_FILE,
    ),
    (
        "serve --session /dev/null --deals /dev/null --journal / --port 1",
        MALFORMED,
    ),
    ("serve --journal /nothing --port 1", NO_JOURNAL),
    ("serve --journal / --port 1", UNREAD_JOURNAL),
    ("audit --journal /nothing", NO_JOURNAL),
    ("audit --journal /", UNREAD_JOURNAL),
    ("copy --journal /nothing --to /nothing", NO_JOURNAL),
    ("copy --journal / --to /nothing", UNREAD_JOURNAL),
    ("check --session /nothing", MISSING_FILE),
    ("check --session /", FOLDER),
    ("check --session /nothing --deals /dev/null", MISSING_FILE),
    ("check --session /dev/null --deals /nothing", MISSING_FILE),
    ("check --session /dev/null", LOOKED_AT),
    ("check --session /dev/null --deals /dev/null", LOOKED_AT),
];

#[test]
fn ends_by_its_words(rt: HostRuntime) {
    for (line, ending) in WORDS {
        assert!(rt;
            ends(&rt, line, &mut session().as_bytes(), ending),
            "{line}"
        );
    }
}

// A message after a session.
const ASKED: &str = "\n{\"as\":\"d\",\"ask\":\"board\",\"board\":4}\n";

const AFTER_CR: &str = "\r\n{\"as\":\"d\",\"ask\":\"board\",\"board\":4}\n";

const ANSWERED: Ending = (0, "{\"error\":\"NoSuchBoard\",\"version\":0}\n", "");

const NOTHING: Ending = (0, "", "");

// How long blanks make the session object, what follows it in a script, and how the program ends.
static SCRIPTS: &[(usize, &str, Ending)] = &[
    (0, ASKED, ANSWERED),
    // A session without a message.
    (0, "", NOTHING),
    (0, "\n", NOTHING),
    (0, "\n\n", NOTHING),
    // A CR before the LF is no byte of the object.
    (1_048_576, ASKED, ANSWERED),
    (1_048_576, AFTER_CR, ANSWERED),
    (1_048_577, ASKED, (1, "", "bridge_server: TooLong\n")),
];

// Scripts whose first line is no session object, which is named on standard error. An empty input, and an empty first
// line, are an empty one.
static NO_SESSIONS: &[(&str, Ending)] = &[
    ("", MALFORMED),
    ("\n", MALFORMED),
    ("\r\n", MALFORMED),
    ("\n{}\n", MALFORMED),
    ("{\"budget\":0", MALFORMED),
];

// Whether a row's script ends so.
fn script_ends<
    R: Files
        + Net
        + Clock
        + Wait
        + Threads
        + JournalFiles
        + LogFiles
        + RandomSource
        + AllocGlobal
        + Sync,
>(rt: &R, (length, rest, ending): &(usize, &str, Ending)) -> bool
where
    R::Listener: Sync,
    R::Stream: Send,
{
    match script_of(rt.alloc(), *length, rest) {
        Ok(script) => ends(rt, "script", &mut script.as_slice(), ending),
        Err(_) => false,
    }
}

#[test]
fn ends_by_its_script(rt: HostRuntime) {
    for row in SCRIPTS {
        assert!(rt; script_ends(&rt, row), "{} {:?}", row.0, row.1);
    }
    for (script, ending) in NO_SESSIONS {
        assert!(rt;
            ends(&rt, "script", &mut script.as_bytes(), ending),
            "{script:?}"
        );
    }
    assert!(rt;
        ends(
            &rt,
            "script",
            &mut session_alone().as_bytes(),
            &WITHOUT_DEALS
        )
    );
}

// Whether a word, which leaves its script alone, ends so over writers that fail after seven bytes: the status, and
// how much is written and said.
fn ends_in_little_room<
    R: Files
        + Net
        + Clock
        + Wait
        + Threads
        + JournalFiles
        + LogFiles
        + RandomSource
        + AllocGlobal
        + Sync,
>(rt: &R, word: &str, (status, written, said): (u8, usize, usize)) -> bool
where
    R::Listener: Sync,
    R::Stream: Send,
{
    let mut writer = FailingWriter::new(rt.alloc(), 7, ErrorKind::BrokenPipe);
    let mut errors = FailingWriter::new(rt.alloc(), 7, ErrorKind::BrokenPipe);
    status_of(rt, word, &mut io::empty(), &mut writer, &mut errors) == status
        && writer.held.len() == written
        && errors.held.len() == said
}

/// What is said of words can't be written: of bad ones the status tells all the same, and help that isn't given is a
/// fault, which can't be told either.
#[test]
fn ends_with_the_status_of_words_that_nobody_hears_of(rt: HostRuntime) {
    assert!(rt; ends_in_little_room(&rt, "again", (2, 0, 7)));
    assert!(rt; ends_in_little_room(&rt, "help", (3, 7, 7)));
}

/// A test is called with words that the program doesn't understand.
#[test]
fn hands_over_the_words_that_it_was_called_with(rt: HostRuntime) {
    let mut errors = Vec::new(rt.alloc());
    assert!(rt; run_program(&rt, &mut errors) == 2);
    assert!(rt; errors.starts_with(b"error: "));
}
