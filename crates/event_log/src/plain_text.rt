//! Names as a log has them.

ghost use Rattle.std.specs.Prelude.{◌≡◌, IfOk, map};
ghost use Rattle.event_log.specs.Plain.{plain_byte, plain};

use std::alloc::{AllocError, Global};

/// A name in which each byte that isn't a printed character of ASCII is a `?`: it can't end its line, or begin another word.
#[tactic(auto, unfolding(crate::specs::Plain::plain))]
pub(crate) fn plain(alloc: Global, name: &[u8]) -> Result<Vec<u8>, AllocError>
    ensures { IfOk result (λ text. text.items ≡ plain name.now) }
{
    let mut text = Vec::with_capacity(alloc, name.len())?;
    for byte in name {
        text.push(plain_byte(*byte))?;
    }
    Ok(text)
}

fn plain_byte(byte: u8) -> u8
    ensures { result ≡ plain_byte byte }
{
    match byte {
        33..=126 => byte,
        _ => b'?',
    }
}
