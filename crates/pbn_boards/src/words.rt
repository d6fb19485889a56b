//! The words that the program is called with.

use std::{env, io};

/// A text that is to be checked: how many boards it has to have, and the file that it stands in.
#[derive(Clone, Copy)]
pub struct Check<'w> {
    pub boards: u8,
    pub file: &'w str,
}

/// The words after the program's name.
pub fn words_after_name(rt: &HostRuntime) -> io::Result<Vec<String>> {
    let mut words = env::args(rt)?;
    let _name = words.next();
    Ok(words.collect(rt.alloc())?)
}

/// The number of boards that a word is.
pub fn boards_in(word: &str) -> Option<u8> {
    word.parse().ok()
}

/// The check that two words ask for.
pub fn check_in(pair: &[String]) -> Option<Check<'_>> {
    let [boards, file] = pair else {
        return None;
    };
    Some(Check {
        boards: boards_in(boards)?,
        file,
    })
}
