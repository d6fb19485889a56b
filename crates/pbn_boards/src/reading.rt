//! From a text to the lines of its boards.

use crate::fault::FileFault;
use crate::line::board_line;
use pbn_records::{BoardSet, read_deals};
use std::alloc::{AllocError, Global};
use std::fs;
use std::io::{self, BufReader, Read};

/// What is called as a file, but is standard input.
pub const STANDARD_INPUT: &str = "-";

/// How many bytes a text has at most.
const MOST_BYTES: u64 = 16_777_216;

/// The lines of the boards 1 to `boards` of a file.
pub fn read_lines(rt: &HostRuntime, file: &str, boards: u8) -> Result<String, FileFault> {
    let set = read_boards(rt, file, boards)?;
    Ok(board_lines(rt.alloc(), &set)?)
}

// The boards 1 to `boards` of a file.
fn read_boards(rt: &HostRuntime, file: &str, boards: u8) -> Result<BoardSet, FileFault> {
    let text = read_text(rt, file)?;
    if text.len() as u64 > MOST_BYTES {
        return Err(FileFault::Unreadable);
    }
    read_deals(rt.alloc(), text.as_slice(), boards).map_err(FileFault::Deals)
}

// All of a file, and of a longer one a byte more than a text may have.
fn read_text(rt: &HostRuntime, file: &str) -> io::Result<Vec<u8>> {
    if file == STANDARD_INPUT {
        read_whole(rt.alloc(), BufReader::new(rt.alloc(), rt.reader())?)
    } else {
        read_whole(rt.alloc(), fs::open(rt, file)?)
    }
}

fn read_whole<I: Read + Drop>(alloc: Global, reader: I) -> io::Result<Vec<u8>> {
    let mut text = Vec::new(alloc);
    reader.take(MOST_BYTES + 1).read_to_end(&mut text)?;
    Ok(text)
}

// A line for each board.
fn board_lines(alloc: Global, set: &BoardSet) -> Result<String, AllocError> {
    let mut lines = String::new(alloc);
    for board in 1..=set.boards() {
        let line = board_line(alloc, set, board)?;
        lines.push_str(line.as_str())?;
    }
    Ok(lines)
}
