//! How a file is coded (RFC 9110, sections 8.4 and 12.5.3).

ghost use Rattle.std.specs.Prelude.{◌≡◌, ◌++◌, reverse, OnOk};
ghost use Rattle.http.specs.Request.{head_of};
ghost use Rattle.http1.specs.Fields.{elements, has_option};
ghost use Rattle.http1.specs.Text.{eq_ignore_case};
ghost use Rattle.http_server.specs.Response.{fields_of};
ghost use Rattle.httparse.specs.Grammar.{skip_ows, trim_ows};
ghost use Rattle.page_answers.specs.PageAnswer.{accepts_gzip, coding_fields, lists_gzip};

use bytes::Bytes;
use http::{HeaderValue, Request, header};
use http_server::Response;
use http1::text::eq_ignore_case;
use httparse::is_space_or_tab;
use std::alloc::AllocError;

/// Says how what is sent was made of the file.
pub(crate) fn add_coding(is_packed: bool, response: &mut Response) -> Result<(), AllocError>
    ensures fields { OnOk result (fields_of response.new ≡ fields_of response.old ++ coding_fields is_packed) }
    ensures status { response.new.status ≡ response.old.status }
    ensures body { response.new.body ≡ response.old.body }
{
    if !is_packed {
        return Ok(());
    }
    response.add_header(header::CONTENT_ENCODING, HeaderValue::from_static("gzip"))
}

/// Whether whoever asks understands gzip, and gives it no weight.
pub(crate) fn accepts_gzip(request: &Request<Bytes>) -> bool
    ensures { result ≡ accepts_gzip (head_of request.now) }
{
    request
        .headers()
        .get_all(header::ACCEPT_ENCODING)
        .iter()
        .any(|value| lists_gzip(value))
}

fn lists_gzip(value: &HeaderValue) -> bool
    ensures { result ≡ lists_gzip value.now }
{
    has_element(value.as_bytes(), b"gzip")
}

// Whether a list (RFC 9110, section 5.6.1) has an element.
fn has_element(list: &[u8], wanted: &[u8]) -> bool
    ensures { result ≡ has_option wanted.now (elements list.now) }
{
    let mut rest = list;
    while let Some(comma) = rest.iter().position(|byte| *byte == b',') {
        if is_element(&rest[..comma], wanted) {
            return true;
        }
        rest = &rest[comma + 1..];
    }
    is_element(rest, wanted)
}

// Whether what stands between commas is an element.
fn is_element(between: &[u8], wanted: &[u8]) -> bool
    ensures { result ≡ eq_ignore_case (trim_ows between.now) wanted.now }
{
    eq_ignore_case(trim_end(trim_start(between)), wanted)
}

fn trim_start(mut bytes: &[u8]) -> &[u8]
    ensures { result.now ≡ skip_ows bytes.now }
{
    while let [first, rest @ ..] = bytes
        && is_space_or_tab(*first)
    {
        bytes = rest;
    }
    bytes
}

fn trim_end(mut bytes: &[u8]) -> &[u8]
    ensures { result.now ≡ reverse (skip_ows (reverse bytes.now)) }
{
    while let [rest @ .., last] = bytes
        && is_space_or_tab(*last)
    {
        bytes = rest;
    }
    bytes
}
