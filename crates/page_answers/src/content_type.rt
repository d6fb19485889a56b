//! The kinds of files.

ghost use Rattle.std.specs.Prelude.{◌≡◌};
ghost use Rattle.http_header.specs.FieldValue.{plain_value};
ghost use Rattle.page_answers.specs.ContentType.{content_type_of, picture_type_of};

use http::HeaderValue;

/// The media type of a file of this name (RFC 9110, section 8.3), which the end of the name tells.
pub(crate) fn content_type_of(name: &[u8]) -> HeaderValue
    ensures { result ≡ plain_value (content_type_of name.now) }
{
    if name.ends_with(b".html") {
        return HeaderValue::from_static("text/html; charset=utf-8");
    }
    if name.ends_with(b".css") {
        return HeaderValue::from_static("text/css; charset=utf-8");
    }
    if name.ends_with(b".js") || name.ends_with(b".mjs") {
        return HeaderValue::from_static("text/javascript; charset=utf-8");
    }
    if name.ends_with(b".json") {
        return HeaderValue::from_static("application/json");
    }
    if name.ends_with(b".webmanifest") {
        return HeaderValue::from_static("application/manifest+json");
    }
    if name.ends_with(b".txt") || name.ends_with(b".md") {
        return HeaderValue::from_static("text/plain; charset=utf-8");
    }
    picture_type_of(name)
}

// The media type of a picture or a font of this name, or that of bytes of which nothing is known.
fn picture_type_of(name: &[u8]) -> HeaderValue
    ensures { result ≡ plain_value (picture_type_of name.now) }
{
    if name.ends_with(b".svg") {
        return HeaderValue::from_static("image/svg+xml");
    }
    if name.ends_with(b".png") {
        return HeaderValue::from_static("image/png");
    }
    if name.ends_with(b".jpg") || name.ends_with(b".jpeg") {
        return HeaderValue::from_static("image/jpeg");
    }
    if name.ends_with(b".webp") {
        return HeaderValue::from_static("image/webp");
    }
    if name.ends_with(b".ico") {
        return HeaderValue::from_static("image/vnd.microsoft.icon");
    }
    if name.ends_with(b".woff2") {
        return HeaderValue::from_static("font/woff2");
    }
    HeaderValue::from_static("application/octet-stream")
}
