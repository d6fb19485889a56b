//! How long a query takes as a view answers it, by what it keeps, and as it is worked out afresh.

ghost use Rattle.std.specs.Prelude.{◌≡◌, []};
ghost use Rattle.wire.specs.Request.{HasFew};

use opened_session::{OpenedSession, open_session};
use published_view::{View, answer_afresh};
use reply_texts::reply_text;
use session_book::Book;
use session_queries::{Query, Reply};
use std::alloc::{AllocError, Global};
use std::io;
use std::time::{Clock, Instant};
use user_names::Name;
use wire::{ScriptRequest, UserRequest, read_script_request};

// How often each way is measured, one way after another: the least time counts.
const ROUNDS: usize = 5;

// A session: its book, and a view that has taken in what was accepted.
#[derive(Drop)]
struct Session {
    book: Book,
    view: View,
}

// How a query is answered.
#[derive(Clone, Copy)]
enum Way {
    Kept,
    Afresh,
}

// What of a query is measured: the view's own part, or all that happens to its message, the text of the reply included.
#[derive(Clone, Copy)]
enum Part {
    Answer,
    Message,
}

// A query of a user, the message that asks it, the view that is asked, and the book that leads to it.
#[derive(Drop)]
struct Asked<'a> {
    alloc: Global,
    view: &'a View,
    book: &'a Book,
    user: Name,
    query: &'a Query,
    since: u64,
    message: &'a str,
}

/// Opens the session of a text's first line, gives it the batches of the next lines, and prints of each query among them
/// how many nanoseconds it takes, the mean of so many times in a row.
pub(crate) fn print_both_ways(rt: &HostRuntime, text: &str, times: usize) -> io::Result<()> {
    let Some((object, messages)) = text.split_once('\n') else {
        return Ok(());
    };
    match open_session(rt.alloc(), object.as_bytes(), None) {
        Ok(OpenedSession { book, .. }) => print_all(rt, book, messages, times),
        Err(_) => Ok(()),
    }
}

fn print_all(rt: &HostRuntime, book: Book, messages: &str, times: usize) -> io::Result<()>
    requires { book.journal ≡ [] }
{
    let Ok(view) = View::open(rt.alloc(), &book) else {
        return Ok(());
    };
    let mut session = Session { book, view };
    for message in messages.lines() {
        hear(rt, &mut session, message, times)?;
    }
    Ok(())
}

fn hear(rt: &HostRuntime, session: &mut Session, message: &str, times: usize) -> io::Result<()> {
    match read_script_request(rt.alloc(), message.as_bytes(), session.view.edition()) {
        Ok(said) => follow(rt, session, &said, message, times),
        Err(_) => Ok(()),
    }
}

fn follow(
    rt: &HostRuntime,
    session: &mut Session,
    said: &ScriptRequest,
    message: &str,
    times: usize,
) -> io::Result<()>
    requires { HasFew said.now.request }
{
    match &said.request {
        UserRequest::Batch { commands } => {
            if session.book.submit(said.user, commands.as_slice()).is_ok() {
                absorb(session);
            }
            Ok(())
        }
        UserRequest::Query { query, since } => {
            let asked = Asked {
                alloc: rt.alloc(),
                view: &session.view,
                book: &session.book,
                user: said.user,
                query,
                since: *since,
                message,
            };
            print_times(rt, &asked, times)
        }
        UserRequest::Audit { .. } => Ok(()),
    }
}

// Lets the view take in what the book has more.
fn absorb(session: &mut Session) {
    for before in session.view.version()..session.book.version() {
        if let Some(entry) = session.book.entry(before + 1) {
            session.view.absorb(entry);
        }
    }
}

fn print_times(rt: &HostRuntime, asked: &Asked<'_>, times: usize) -> io::Result<()> {
    let (answer, answer_afresh) = least(rt, asked, Part::Answer, times);
    let (message, message_afresh) = least(rt, asked, Part::Message, times);
    println!(rt; "answer {answer} afresh {answer_afresh} message {message} afresh {message_afresh}")
}

// The least times by what is kept and afresh, one measured after the other in each round.
fn least<R: Clock>(rt: &R, asked: &Asked<'_>, part: Part, times: usize) -> (u128, u128) {
    let (mut kept, mut afresh) = (u128::MAX, u128::MAX);
    for _ in 0..ROUNDS {
        kept = kept.min(nanoseconds(rt, asked, part, Way::Kept, times));
        afresh = afresh.min(nanoseconds(rt, asked, part, Way::Afresh, times));
    }
    (kept, afresh)
}

// The mean of so many times in a row, or the most that there is where no clock is told or no reply is given.
fn nanoseconds<R: Clock>(rt: &R, asked: &Asked<'_>, part: Part, way: Way, times: usize) -> u128 {
    let Ok(start) = Instant::now(rt) else {
        return u128::MAX;
    };
    for _ in 0..times {
        if !is_done(asked, part, way) {
            return u128::MAX;
        }
    }
    match start.elapsed(rt) {
        Ok(elapsed) => elapsed.as_nanos() / times.max(1) as u128,
        Err(_) => u128::MAX,
    }
}

// Whether what is measured comes to its end.
fn is_done(asked: &Asked<'_>, part: Part, way: Way) -> bool {
    match part {
        Part::Answer => reply(asked, way).is_ok(),
        Part::Message => is_told(asked, way),
    }
}

fn reply(asked: &Asked<'_>, way: Way) -> Result<Reply, AllocError> {
    answered(asked, asked.user, asked.query, asked.since, way)
}

// Whether the message is read, answered, and the reply written as a text.
fn is_told(asked: &Asked<'_>, way: Way) -> bool {
    match read_script_request(asked.alloc, asked.message.as_bytes(), asked.view.edition()) {
        Ok(said) => is_written(asked, &said, way),
        Err(_) => false,
    }
}

fn is_written(asked: &Asked<'_>, said: &ScriptRequest, way: Way) -> bool {
    match &said.request {
        UserRequest::Query { query, since } => {
            match answered(asked, said.user, query, *since, way) {
                Ok(reply) => reply_text(asked.alloc, &reply).is_ok(),
                Err(_) => false,
            }
        }
        _ => false,
    }
}

fn answered(
    asked: &Asked<'_>,
    user: Name,
    query: &Query,
    since: u64,
    way: Way,
) -> Result<Reply, AllocError> {
    match way {
        Way::Kept => asked.view.answer(asked.alloc, user, query, since),
        Way::Afresh => answer_afresh(asked.alloc, asked.book, user, query, since),
    }
}
