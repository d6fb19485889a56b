//! A script with messages that are sent many times, to fill a journal. The text begins with a session object; each line
//! after it has a number and a message that is sent so often, and what is written is the answer to the last of each.

use program::run_script;
use std::alloc::{AllocError, Global};
use std::io::Write;

/// Writes the answer to the last of each line's messages, and whether it could.
pub(crate) fn answer_repeated<O: Write>(alloc: Global, text: &str, writer: &mut O) -> bool {
    let mut script = String::new(alloc);
    let mut ends = Vec::new(alloc);
    if put_repeated(text, &mut script, &mut ends).is_err() {
        return false;
    }
    let mut answers = Vec::new(alloc);
    run_script(alloc, &mut script.as_bytes(), &mut answers).is_ok()
        && write_ends(answers.as_slice(), ends.as_slice(), writer)
}

// Puts each line's message into a script as often as the line says, and after how many lines it ends.
fn put_repeated(text: &str, script: &mut String, ends: &mut Vec<usize>) -> Result<(), AllocError> {
    let mut sent = 0usize;
    for line in text.lines() {
        let (times, message) = repeated(line);
        repeat(script, times, message)?;
        sent = sent.saturating_add(times);
        ends.push(sent)?;
    }
    Ok(())
}

// How often a line's message is sent; a line without a number is sent once.
fn repeated(line: &str) -> (usize, &str) {
    match line.split_once(" ") {
        Some((times, message)) => match times.parse::<usize>() {
            Ok(times) => (times, message),
            Err(_) => (1, line),
        },
        None => (1, line),
    }
}

// Puts a message into a script so often.
fn repeat(script: &mut String, times: usize, message: &str) -> Result<(), AllocError> {
    for _time in 0..times {
        script.push_str(message)?;
        script.push('\n')?;
    }
    Ok(())
}

// Writes the answers to the lines of a script with these numbers, from 1, and whether it could; the first line has
// none.
fn write_ends<O: Write>(answers: &[u8], ends: &[usize], writer: &mut O) -> bool {
    let mut number = 1usize;
    for answer in answers.split_inclusive(|byte| *byte == b'\n') {
        number = number.saturating_add(1);
        if ends.contains(&number) && writer.write_all(answer).is_err() {
            return false;
        }
    }
    true
}
