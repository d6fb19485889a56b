//! The answers from the files of a page.

ghost use Rattle.std.specs.Prelude.{◌≡◌, bytes_eq, IfOk, OnOk, Some, option_map};
ghost use Rattle.http.specs.Request.{head_of};
ghost use Rattle.http_server.specs.Response.{IsBlank};
ghost use Rattle.page_answers.specs.PageAnswer.{files_of, name_asked, file_named, file_asked, found_answer, packed_for, packed_name, get_answer, given, IsAnswer, HasGuards, IsPageAnswer};

use crate::codings::accepts_gzip;
use crate::fixed_answers::{refuse_method, say_not_found};
use crate::guards::add_guards;
use crate::tagged_file::TaggedFile;
use bytes::Bytes;
use http::Request;
use http_server::Response;
use page_files::PageFile;
use std::alloc::{AllocError, Global};

/// The files of a page, ready to be handed out. Threads may share it.
#[derive(Drop)]
pub struct PageAnswers {
    files: Vec<TaggedFile>,
}

impl PageAnswers {
    /// The answers from these files.
    pub fn new(alloc: Global, files: Vec<PageFile>) -> Result<PageAnswers, AllocError>
        ensures { IfOk result (λ page. files_of page ≡ files.items) }
    {
        let mut tagged = Vec::new(alloc);
        for file in files {
            tagged.push(TaggedFile::new(alloc, file)?)?;
        }
        Ok(PageAnswers { files: tagged })
    }

    /// Fills a response that comes blank with the answer to a request. The error is for memory alone.
    pub fn answer(
        &self,
        request: &Request<Bytes>,
        response: &mut Response,
    ) -> Result<(), AllocError>
        requires { IsBlank response.old }
        ensures { OnOk result (IsPageAnswer (files_of self.now) (head_of request.now) response.new) }
    {
        add_guards(response)?;
        let method = request.method().as_str();
        if method == "GET" {
            self.give(request, false, response)
        } else if method == "HEAD" {
            self.give(request, true, response)
        } else {
            refuse_method(response)
        }
    }

    // The answer to GET, or to HEAD.
    fn give(
        &self,
        request: &Request<Bytes>,
        is_head: bool,
        response: &mut Response,
    ) -> Result<(), AllocError>
        requires { HasGuards response.old }
        ensures { OnOk result
            (IsAnswer (given is_head (get_answer (files_of self.now) (head_of request.now))) response.new) }
    {
        match self.file_asked(request.uri().path()) {
            Some(file) => self.give_form(file, request, is_head, response),
            None => say_not_found(is_head, response),
        }
    }

    // Answers with a file, in its compressed form if there is one that whoever asks understands.
    fn give_form(
        &self,
        file: &TaggedFile,
        request: &Request<Bytes>,
        is_head: bool,
        response: &mut Response,
    ) -> Result<(), AllocError>
        requires { HasGuards response.old }
        ensures { OnOk result (IsAnswer
            (given is_head (found_answer (files_of self.now) (head_of request.now) (Some file.now.file))) response.new) }
    {
        let name = file.file.name.as_str();
        match self.packed_for(request, name) {
            Some(packed) => packed.give(name, true, request, is_head, response),
            None => file.give(name, false, request, is_head, response),
        }
    }

    // The compressed form of the file of a name, if there is one, and whoever asks understands it.
    fn packed_for(&self, request: &Request<Bytes>, name: &str) -> Option<&TaggedFile>
        ensures { option_map (λ tagged. tagged.now.file) result
            ≡ packed_for (files_of self.now) (head_of request.now) name.now }
    {
        if accepts_gzip(request) {
            self.packed_named(name.as_bytes())
        } else {
            None
        }
    }

    // What stands under a name with `.gz` behind it.
    fn packed_named(&self, name: &[u8]) -> Option<&TaggedFile>
        ensures { option_map (λ tagged. tagged.now.file) result ≡ file_named (files_of self.now) (packed_name name.now) }
    {
        self.files
            .iter()
            .find(|tagged| is_packed_name(tagged.file.name.as_bytes(), name))
    }

    // The file that a path asks for.
    fn file_asked(&self, path: &str) -> Option<&TaggedFile>
        ensures { option_map (λ tagged. tagged.now.file) result ≡ file_asked (files_of self.now) path.now }
    {
        match name_asked(path.as_bytes()) {
            Some(name) => self.file_named(name),
            None => None,
        }
    }

    // The file of a name.
    fn file_named(&self, name: &[u8]) -> Option<&TaggedFile>
        ensures { option_map (λ tagged. tagged.now.file) result ≡ file_named (files_of self.now) name.now }
    {
        self.files
            .iter()
            .find(|tagged| tagged.file.name.as_bytes() == name)
    }
}

// Whether the first name is the second with `.gz` behind it.
fn is_packed_name(packed: &[u8], name: &[u8]) -> bool
    ensures { result ≡ bytes_eq packed.now (packed_name name.now) }
{
    match packed.strip_suffix(b".gz") {
        Some(front) => front == name,
        None => false,
    }
}

// The name that a path asks for. It is taken as it was sent: nothing in it is decoded, and no step of it is gone.
fn name_asked(path: &[u8]) -> Option<&[u8]>
    ensures { option_map (λ name. name.now) result ≡ name_asked path.now }
{
    match path {
        [b'/'] => Some(b"index.html"),
        [b'/', name @ ..] => Some(name),
        _ => None,
    }
}
