ghost use Rattle.std.specs.Prelude.{◌≡◌};
ghost use Rattle.http.specs.Request.{head_of};
ghost use Rattle.page_answers.specs.PageAnswer.{files_of, IsPageAnswer};

use crate::page_answers::PageAnswers;
use bytes::Bytes;
use http::Request;
use http_server::{Response, Service};
use std::alloc::AllocError;

/// Answers requests from the files of a page, as a service of `http_server`. What it answers changes nothing.
#[derive(Clone, Copy)]
pub struct PageService<'a> {
    pub page: &'a PageAnswers,
}

impl Service for PageService<'_> {
    ghost answers = { λ old request response new.
        (new ≡ old) × IsPageAnswer (files_of old.page.now) (head_of request) response };

    fn call(
        &mut self,
        request: &Request<Bytes>,
        response: &mut Response,
    ) -> Result<(), AllocError> {
        self.page.answer(request, response)
    }
}
