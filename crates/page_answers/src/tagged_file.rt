//! A file of the page with what is told of it.

ghost use Rattle.std.specs.Prelude.{◌≡◌, ◌<◌, ◌^◌, length, decimal, IfOk, OnOk};
ghost use Rattle.http_header.specs.FieldValue.{plain_value};
ghost use Rattle.http.specs.Request.{head_of};
ghost use Rattle.page_answers.specs.FileTag.{file_tag};

use crate::codings::add_coding;
use crate::content_type::content_type_of;
use crate::fixed_answers::put_body;
use crate::told_tags::tells_tag;
use bytes::Bytes;
use http::{HeaderValue, Request, StatusCode, header};
use http_server::Response;
use page_files::PageFile;
use sha2::{Digest, Sha256};
use std::alloc::{AllocError, Global};

/// A file of the page with what is told of it.
#[derive(Drop)]
pub(crate) struct TaggedFile {
    pub(crate) file: PageFile,
    /// Its entity tag (RFC 9110, section 8.8.3).
    pub(crate) tag: HeaderValue,
    /// How many bytes it has.
    pub(crate) size: HeaderValue,

    ghost tagged: { tag ≡ plain_value (file_tag file.bytes) },
    ghost sized: { size ≡ plain_value (decimal (length file.bytes)) },
}

impl TaggedFile {
    /// Tags a file.
    pub(crate) fn new(alloc: Global, file: PageFile) -> Result<TaggedFile, AllocError>
        ensures { IfOk result (λ tagged. tagged.file ≡ file) }
    {
        let tag = file_tag(alloc, file.bytes.as_slice())?;
        let size = decimal(alloc, file.bytes.len())?;
        Ok(TaggedFile { file, tag, size })
    }
}

impl TaggedFile {
    ghost use Rattle.page_answers.specs.PageAnswer.{sent_answer, given, is_held, unchanged_answer, whole_answer, IsAnswer, HasGuards};

    /// Answers with this file for the one of a name, whose compressed form it may be, or that it is still what it was.
    pub(crate) fn give(
        &self,
        name: &str,
        is_packed: bool,
        request: &Request<Bytes>,
        is_head: bool,
        response: &mut Response,
    ) -> Result<(), AllocError>
        requires { HasGuards response.old }
        ensures { OnOk result
            (IsAnswer (given is_head (sent_answer (head_of request.now) name.now is_packed self.now.file)) response.new) }
    {
        response.add_header(header::VARY, HeaderValue::from_static("accept-encoding"))?;
        response.add_header(header::ETAG, self.tag.clone()?)?;
        if self.is_held(request) {
            response.status = StatusCode::NOT_MODIFIED;
            return Ok(());
        }
        response.add_header(header::CONTENT_TYPE, content_type_of(name.as_bytes()))?;
        add_coding(is_packed, response)?;
        put_body(
            self.file.bytes.clone()?,
            self.size.clone()?,
            is_head,
            response,
        )
    }

    // Whether whoever asks tells that he has what is sent.
    fn is_held(&self, request: &Request<Bytes>) -> bool
        ensures { result ≡ is_held self.now.file (head_of request.now) }
    {
        request
            .headers()
            .get_all(header::IF_NONE_MATCH)
            .iter()
            .any(|value| tells_tag(value, self.tag.as_bytes()))
    }
}

// The entity tag of a file with these bytes: their SHA-256 in hexadecimal digits, in quotes.
fn file_tag(alloc: Global, bytes: &[u8]) -> Result<HeaderValue, AllocError>
    ensures { IfOk result (λ tag. tag ≡ plain_value (file_tag bytes.now)) }
{
    let digest = Sha256::digest(bytes);
    let digits = hex::encode(alloc, digest)?;
    let text = format!(in alloc; "\"{digits}\"")?;
    match HeaderValue::from_string(text) {
        Ok(tag) => Ok(tag),
        Err(_) => Err(AllocError),
    }
}

fn decimal(alloc: Global, number: usize) -> Result<HeaderValue, AllocError>
    ensures { IfOk result (λ value. value ≡ plain_value (decimal number)) }
{
    let text = format!(in alloc; "{number}")?;
    match HeaderValue::from_string(text) {
        Ok(value) => Ok(value),
        Err(_) => Err(AllocError),
    }
}
