//! The tags that whoever asks tells (RFC 9110, section 13.1.2).

ghost use Rattle.std.specs.Prelude.{◌≡◌};
ghost use Rattle.memchr.specs.Find.{matches};
ghost use Rattle.page_answers.specs.PageAnswer.{is_any, tells_tag};

use http::HeaderValue;
use memchr::memmem;

/// Whether a field's value tells a tag. A tag has quotes at both ends and none between, so it stands in no other.
pub(crate) fn tells_tag(value: &HeaderValue, tag: &[u8]) -> bool
    ensures { result ≡ tells_tag tag.now value.now }
{
    value.as_bytes() == b"*".as_slice() || stands_in(value.as_bytes(), tag)
}

// Whether some bytes stand somewhere in others.
fn stands_in(all: &[u8], some: &[u8]) -> bool
    ensures { result ≡ is_any (matches all.now some.now 0) }
{
    match memmem::find_iter(all, some).next() {
        Some(_) => true,
        None => false,
    }
}
