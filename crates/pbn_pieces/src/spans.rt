//! What stands at the front of a text.

ghost use Rattle.std.specs.Prelude.{◌≡◌};
ghost use Rattle.pbn_pieces.specs.Kinds.{is_of_kind};
ghost use Rattle.pbn_pieces.specs.Cutting.{split};

/// Bytes of one kind.
#[derive(Clone, Copy)]
pub(crate) enum Kind {
    /// Space, tab, CR, LF.
    Blanks,
    /// Space and tab.
    Spaces,
    /// ASCII letters, digits and `_`.
    NameBytes,
    /// All but this one.
    OtherThan(u8),
}

impl Kind {
    fn has(self, byte: u8) -> bool
        ensures { result ≡ is_of_kind self byte }
    {
        match self {
            Kind::Blanks => matches!(byte, b' ' | b'\t' | b'\r' | b'\n'),
            Kind::Spaces => matches!(byte, b' ' | b'\t'),
            Kind::NameBytes => byte.is_ascii_alphanumeric() || byte == b'_',
            Kind::OtherThan(end) => byte != end,
        }
    }
}

/// The bytes of a kind at the front, and the rest.
pub(crate) fn split_off(kind: Kind, bytes: &[u8]) -> (&[u8], &[u8])
    ensures { (result.0.now, result.1.now) ≡ split (is_of_kind kind) bytes.now }
{
    for (i, byte) in bytes.iter().enumerate() {
        if !kind.has(*byte) {
            return (&bytes[..i], &bytes[i..]);
        }
    }
    (bytes, &[])
}
