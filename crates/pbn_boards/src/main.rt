//! The boards of PBN texts, a line each, or why they can't be read: to check files before a session.
#![tactic(auto)]

mod fault;
mod line;
mod reading;
mod words;

use crate::fault::FileFault;
use crate::reading::{STANDARD_INPUT, read_lines};
use crate::words::{Check, boards_in, check_in, words_after_name};
use std::io;
use std::process::ExitCode;

const USAGE: &str = "usage: pbn_boards BOARDS
       pbn_boards BOARDS FILE [BOARDS FILE]..

Writes the boards 1 to BOARDS (at most 255) of a PBN text, or why they can't be read: of standard input, or of each
FILE under its name. The FILE - is standard input.";

fn main(rt: HostRuntime) -> ExitCode {
    ExitCode::from(match words_after_name(&rt) {
        Ok(words) => run(&rt, words.as_slice()),
        Err(error) if error.kind() == io::ErrorKind::OutOfMemory => 4,
        // Some word is no text.
        Err(_) => explain(&rt),
    })
}

// Does what the words ask for, and says with which status the program ends.
fn run(rt: &HostRuntime, words: &[String]) -> u8 {
    match words {
        [] => explain(rt),
        [boards] => match boards_in(boards) {
            Some(boards) => write_boards(rt, boards),
            None => explain(rt),
        },
        checks => check_files(rt, checks),
    }
}

// Says how the program is called.
fn explain(rt: &HostRuntime) -> u8 {
    // Where it can't be written, the status still tells.
    let _unwritten = eprintln!(rt; "{USAGE}");
    2
}

// Writes the boards of standard input.
fn write_boards(rt: &HostRuntime, boards: u8) -> u8 {
    match read_lines(rt, STANDARD_INPUT, boards) {
        Ok(lines) => status_written(print!(rt; "{lines}"), 0),
        Err(fault) => {
            // Where it can't be written, the status still tells.
            let _unwritten = eprintln!(rt; "pbn_boards: {fault}");
            fault.status()
        }
    }
}

// Checks one file after another, if all words are understood. The status is the greatest of theirs.
fn check_files(rt: &HostRuntime, words: &[String]) -> u8 {
    if words.chunks(2).any(|pair| check_in(pair).is_none()) {
        return explain(rt);
    }
    let mut status = 0;
    for check in words.chunks(2).filter_map(check_in) {
        status = status.max(check_file(rt, check));
    }
    status
}

// Writes the boards of a file under its name, or after that why they can't be read.
fn check_file(rt: &HostRuntime, check: Check<'_>) -> u8 {
    let file = check.file;
    match read_lines(rt, file, check.boards) {
        Ok(lines) => status_written(print!(rt; "{file}:\n{lines}"), 0),
        Err(fault) => status_written(println!(rt; "{file}: {fault}"), fault.status()),
    }
}

// The status, or 3 where what was to be written isn't.
fn status_written(written: io::Result<()>, status: u8) -> u8 {
    match written {
        Ok(()) => status,
        Err(_) => 3,
    }
}
