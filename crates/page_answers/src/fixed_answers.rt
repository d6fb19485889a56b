//! The answers that are the same for each page.

ghost use Rattle.std.specs.Prelude.{◌≡◌, [], decimal, length, OnOk};
ghost use Rattle.http_header.specs.FieldValue.{plain_value};
ghost use Rattle.http_server.specs.Response.{fields_of};
ghost use Rattle.page_answers.specs.PageAnswer.{given, not_found_answer, not_allowed_answer, IsAnswer, HasGuards};

use bytes::Bytes;
use http::{HeaderValue, StatusCode, header};
use http_server::Response;
use std::alloc::AllocError;

/// Answers that there is no such file.
pub(crate) fn say_not_found(is_head: bool, response: &mut Response) -> Result<(), AllocError>
    requires { HasGuards response.old }
    ensures { OnOk result (IsAnswer (given is_head not_found_answer) response.new) }
{
    response.status = StatusCode::NOT_FOUND;
    response.add_header(
        header::CONTENT_TYPE,
        HeaderValue::from_static("text/plain; charset=utf-8"),
    )?;
    put_body(
        Bytes::from_static(b"There is no such file."),
        HeaderValue::from_static("22"),
        is_head,
        response,
    )
}

/// Answers that files are read, and that nothing else is done to them.
pub(crate) fn refuse_method(response: &mut Response) -> Result<(), AllocError>
    requires { HasGuards response.old }
    ensures { OnOk result (IsAnswer not_allowed_answer response.new) }
{
    response.status = StatusCode::METHOD_NOT_ALLOWED;
    response.add_header(header::ALLOW, HeaderValue::from_static("GET, HEAD"))?;
    response.add_header(
        header::CONTENT_TYPE,
        HeaderValue::from_static("text/plain; charset=utf-8"),
    )?;
    response.body.push(Bytes::from_static(b"Files are read by GET and HEAD alone."))
}

/// Puts a body into an answer to GET, and how long it is into one to HEAD.
pub(crate) fn put_body(
    body: Bytes,
    size: HeaderValue,
    is_head: bool,
    response: &mut Response,
) -> Result<(), AllocError>
    requires unsent { response.old.body.items ≡ [] }
    requires sized { size ≡ plain_value (decimal (length body)) }
    ensures { OnOk result (IsAnswer (given is_head (record { status = response.old.status; fields = fields_of response.old; body = body }))
        response.new) }
{
    if !is_head {
        return response.body.push(body);
    }
    if body.is_empty() {
        return Ok(());
    }
    response.add_header(header::CONTENT_LENGTH, size)
}
