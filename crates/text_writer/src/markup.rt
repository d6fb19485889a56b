//! Texts from people, as HTML and XML have them.
ghost use Rattle.std.specs.Prelude.{◌≡◌, ◌++◌, IfOk, OnOk};
ghost use Rattle.text_writer.specs.Markup.{escaped, escaped_byte};

use std::alloc::{AllocError, Global};

/// A text in which no byte begins a tag, an entity or an attribute's end, or is a control character.
#[tactic(auto, unfolding(crate::specs::Markup::escaped))]
pub fn escaped(alloc: Global, text: &[u8]) -> Result<Vec<u8>, AllocError>
    ensures { IfOk result (λ written. written.items ≡ escaped text.now) }
{
    let mut written = Vec::with_capacity(alloc, text.len())?;
    for byte in text {
        push_escaped(&mut written, *byte)?;
    }
    Ok(written)
}

fn push_escaped(written: &mut Vec<u8>, byte: u8) -> Result<(), AllocError>
    ensures { OnOk result (written.new.items ≡ written.old.items ++ escaped_byte byte) }
{
    match byte {
        b'&' => written.extend_from_slice(b"&amp;"),
        b'<' => written.extend_from_slice(b"&lt;"),
        b'>' => written.extend_from_slice(b"&gt;"),
        b'"' => written.extend_from_slice(b"&quot;"),
        b'\'' => written.extend_from_slice(b"&#39;"),
        0..=31 | 127 => written.extend_from_slice(b"?"),
        _ => written.extend_from_slice(&[byte]),
    }
}
