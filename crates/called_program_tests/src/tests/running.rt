//! The program, run over streams.

use called_program::run_words;
use event_log::LogFiles;
use journal_store::JournalFiles;
use std::alloc::Global;
use std::io::{Read, Write};
use std::net::Net;
use std::random::RandomSource;
use std::rt::Files;
use std::sync::Wait;
use std::thread::Threads;
use std::time::Clock;

/// The words of a line, as the program is called with them: after its name.
pub(super) fn words_of(alloc: Global, line: &str) -> Vec<String> {
    let mut words = Vec::new(alloc);
    push_word(&mut words, alloc, "bridge_server");
    for word in line.split_ascii_whitespace() {
        push_word(&mut words, alloc, word);
    }
    words
}

// Without memory a word is missing, and the program doesn't end as a test wants it to.
fn push_word(words: &mut Vec<String>, alloc: Global, word: &str) {
    if let Ok(word) = String::from_str(alloc, word) {
        let _pushed = words.push(word);
    }
}

/// The status with which the program ends that is called with the words of a line.
pub(super) fn status_of<
    R: Files
        + Net
        + Clock
        + Wait
        + Threads
        + JournalFiles
        + LogFiles
        + RandomSource
        + AllocGlobal
        + Sync,
    I: Read,
    W: Write,
    E: Write,
>(rt: &R, line: &str, reader: &mut I, writer: &mut W, errors: &mut E) -> u8
where
    R::Listener: Sync,
    R::Stream: Send,
{
    let words = words_of(rt.alloc(), line);
    run_words(rt, words.as_slice(), reader, writer, errors)
}

/// A status, what is written, and what is said besides.
pub(super) type Ending<'t> = (u8, &'t str, &'t str);

/// Whether the program that is called with the words of a line ends so. A text that doesn't end a line is how one
/// begins.
pub(super) fn ends<
    R: Files
        + Net
        + Clock
        + Wait
        + Threads
        + JournalFiles
        + LogFiles
        + RandomSource
        + AllocGlobal
        + Sync,
    I: Read,
>(rt: &R, line: &str, reader: &mut I, (status, answers, faults): &Ending) -> bool
where
    R::Listener: Sync,
    R::Stream: Send,
{
    let mut written = Vec::new(rt.alloc());
    let mut said = Vec::new(rt.alloc());
    status_of(rt, line, reader, &mut written, &mut said) == *status
        && is_told(written.as_slice(), answers)
        && is_told(said.as_slice(), faults)
}

fn is_told(told: &[u8], text: &str) -> bool {
    let is_beginning = !text.is_empty() && !text.ends_with('\n');
    told.starts_with(text.as_bytes()) && (is_beginning || told.len() == text.len())
}
