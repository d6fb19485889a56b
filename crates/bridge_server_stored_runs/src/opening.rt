//! How a script ends that begins with a session object, for each line of a text. A line gets the status, and then what
//! the program writes: why the session isn't opened, or its answer to a first message.

use program::status_of_script;
use std::alloc::{AllocError, Global};
use std::io::Write;

/// A message that each session answers alike: no session has a board 0.
const MESSAGE: &str = "{\"as\":\"a\",\"ask\":\"board\",\"board\":0}";

/// Writes a line for each session object, and whether it could.
pub(crate) fn open_all<O: Write>(alloc: Global, text: &str, writer: &mut O) -> bool {
    for object in text.lines() {
        if !write_line(alloc, object, writer) {
            return false;
        }
    }
    true
}

fn write_line<O: Write>(alloc: Global, object: &str, writer: &mut O) -> bool {
    match line_of(alloc, object) {
        Ok(line) => writer.write_all(line.as_slice()).is_ok(),
        Err(_) => false,
    }
}

// The status with which a script ends, and what is written.
fn line_of(alloc: Global, object: &str) -> Result<Vec<u8>, AllocError> {
    let script = format!(in alloc; "{object}\n{MESSAGE}\n")?;
    let mut answers = Vec::new(alloc);
    let mut errors = Vec::new(alloc);
    let status = status_of_script(alloc, &mut script.as_bytes(), &mut answers, &mut errors);
    joined(alloc, status, errors.as_slice(), answers.as_slice())
}

fn joined(alloc: Global, status: u8, errors: &[u8], answers: &[u8]) -> Result<Vec<u8>, AllocError> {
    let status = format!(in alloc; "{status} ")?;
    let mut line = Vec::from_slice(alloc, status.as_bytes())?;
    line.extend_from_slice(errors)?;
    line.extend_from_slice(answers)?;
    Ok(line)
}
