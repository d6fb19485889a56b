//! Messages on connections. The text begins with a session object. Each line after it is a message on a connection; an
//! empty line ends the connection, and on the next one nobody has signed in.

use crate::keeping::keeper_of;
use connections::Connection;
use json_fields::RequestFault;
use session_keeper::CommandKeeper;
use std::io::Write;
use std::sync::Wait;
use wire::fault_text;

/// Answers each line after the first, and whether it could; a session that isn't opened has none.
pub(crate) fn answer_connections<R: Wait + AllocGlobal, O: Write>(
    rt: &R,
    text: &str,
    writer: &mut O,
) -> bool {
    let Some((object, messages)) = text.split_once('\n') else {
        return false;
    };
    match keeper_of(rt.alloc(), object) {
        Some(keeper) => answer_one_by_one(rt, keeper, messages, writer),
        None => false,
    }
}

// Answers one connection after another.
fn answer_one_by_one<R: Wait + AllocGlobal, K: CommandKeeper<R>, O: Write>(
    rt: &R,
    keeper: K,
    text: &str,
    writer: &mut O,
) -> bool {
    let mut connection = Connection::new(rt.alloc(), keeper);
    for messages in text.split_inclusive("\n\n") {
        if !answer_messages(rt, &mut connection, messages, writer) {
            return false;
        }
        connection = Connection::new(rt.alloc(), connection.into_keeper());
    }
    true
}

fn answer_messages<R: Wait + AllocGlobal, K: CommandKeeper<R>, O: Write>(
    rt: &R,
    connection: &mut Connection<K>,
    messages: &str,
    writer: &mut O,
) -> bool {
    for message in messages.lines() {
        if !answer_message(rt, connection, message, writer) {
            return false;
        }
    }
    true
}

// An empty line ends a connection, and has no answer.
fn answer_message<R: Wait + AllocGlobal, K: CommandKeeper<R>, O: Write>(
    rt: &R,
    connection: &mut Connection<K>,
    message: &str,
    writer: &mut O,
) -> bool {
    if message.is_empty() {
        return writer.write_all(b"\n").is_ok();
    }
    match connection.serve_message(rt, rt.alloc(), message.as_bytes()) {
        Ok(text) => writeln!(writer, "{text}").is_ok(),
        Err(_) => writeln!(writer, "{}", fault_text(RequestFault::OutOfMemory)).is_ok(),
    }
}
