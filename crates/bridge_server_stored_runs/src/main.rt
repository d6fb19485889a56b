//! The results server once more, for a stored run of words that it doesn't understand, and of many sessions. Called
//! with words that aren't understood it first explains them as `bridge_server` does, and ends with that status.
//! Standard input has parts, and each is an LF, a line with its name and then its text. Most parts are a whole script,
//! which begins with a session object of its own; of five kinds that are none, the name up to a comma says which it is.
//! Where a part isn't answered to its end, whatever the cause, nothing follows, and the status is 1.
#![tactic(auto)]

mod both_ways;
mod connecting;
mod keeping;
mod opening;
mod policy;
mod repeating;
mod session;
mod solver;

use crate::both_ways::answer_both_ways;
use crate::connecting::answer_connections;
use crate::opening::open_all;
use crate::repeating::answer_repeated;
use crate::session::answer_beside_solver;
use program::run_script;
use server_words::{called_with, read_words, status_of_words};
use std::io::{self, BufReader, Read, Write};
use std::process::ExitCode;
use std::rt::Runtime;
use std::sync::Wait;

fn main(rt: HostRuntime) -> ExitCode {
    ExitCode::from(run(&rt, &mut rt.stderr()))
}

// Words that aren't understood leave the input for the parts, and write nothing before their answers.
fn run<R: Runtime + Wait + AllocGlobal, E: Write>(rt: &R, errors: &mut E) -> u8 {
    let status = status_of_call(rt, errors);
    if answer_all(rt) { status } else { 1 }
}

// The status after the words that the program was called with, if any: that of `bridge_server` where they aren't
// understood.
fn status_of_call<R: Runtime + AllocGlobal, E: Write>(rt: &R, errors: &mut E) -> u8 {
    let Ok(words) = called_with(rt) else {
        return 4;
    };
    if words.len() < 2 {
        return 0;
    }
    match read_words(rt.alloc(), words.as_slice()) {
        Ok(_) => 0,
        Err(error) => status_of_words(rt.alloc(), &error, &mut io::writer(rt), errors),
    }
}

// Writes the name of each part and what its text gets, in the form that the input has, and whether all are answered.
fn answer_all<R: Runtime + Wait + AllocGlobal>(rt: &R) -> bool {
    let mut text = String::new(rt.alloc());
    let Ok(mut reader) = BufReader::new(rt.alloc(), rt.reader()) else {
        return false;
    };
    reader.read_to_string(&mut text).is_ok() && answer_parts(rt, &text)
}

fn answer_parts<R: Runtime + Wait + AllocGlobal>(rt: &R, text: &str) -> bool {
    let Some(parts) = text.strip_prefix("\n== ") else {
        return false;
    };
    let mut writer = io::writer(rt);
    for part in parts.split("\n== ") {
        if !answer_named(rt, part, &mut writer) {
            return false;
        }
    }
    true
}

// Writes the name of a part and what its text gets.
fn answer_named<R: Runtime + Wait + AllocGlobal, O: Write>(
    rt: &R,
    part: &str,
    writer: &mut O,
) -> bool {
    let Some((name, text)) = part.split_once('\n') else {
        return false;
    };
    write!(writer, "\n== {name}\n").is_ok() && answer_part(rt, name, text, writer)
}

fn answer_part<R: Runtime + Wait + AllocGlobal, O: Write>(
    rt: &R,
    name: &str,
    text: &str,
    writer: &mut O,
) -> bool {
    let kind = match name.split_once(", ") {
        Some((kind, _)) => kind,
        None => name,
    };
    match kind {
        "connections" => answer_connections(rt, text, writer),
        "solver" => answer_beside_solver(rt.alloc(), text, writer),
        "both ways" => answer_both_ways(rt.alloc(), text, writer),
        "session objects" => open_all(rt.alloc(), text, writer),
        "full journal" => answer_repeated(rt.alloc(), text, writer),
        _ => run_script(rt.alloc(), &mut text.as_bytes(), &mut &mut *writer).is_ok(),
    }
}
