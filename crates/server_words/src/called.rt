//! The words, as the system has them.

use std::alloc::{AllocError, Global};
use std::rt::Runtime;
use std::{env, io};

/// The words that the program was called with, its name first. Where one is no text there are none, and they aren't
/// understood.
pub fn called_with<R: Runtime + AllocGlobal>(rt: &R) -> Result<Vec<String>, AllocError> {
    match env::args(rt) {
        Ok(words) => listed(rt.alloc(), words),
        Err(error) if error.kind() == io::ErrorKind::OutOfMemory => Err(AllocError),
        Err(_) => Ok(Vec::new(rt.alloc())),
    }
}

// The words one after another.
fn listed(alloc: Global, words: env::Args) -> Result<Vec<String>, AllocError> {
    let mut all = Vec::new(alloc);
    for word in words {
        all.push(word)?;
    }
    Ok(all)
}
