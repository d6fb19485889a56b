ghost use Rattle.std.specs.Prelude.{◌≡◌, option_map};
ghost use Rattle.http.specs.Request.{head_of};
ghost use Rattle.page_answers.specs.PageAnswer.{files_of};
ghost use Rattle.hall_door.specs.Pages.{IsHandedOut};

use bytes::Bytes;
use http::{Request, StatusCode};
use http_server::{Response, Service};
use page_answers::PageAnswers;
use std::alloc::AllocError;

/// What is handed out to whoever asks for no session: the files of a page, or where there is none, that there is none.
#[derive(Clone, Copy)]
pub struct HallPage<'a> {
    page: Option<&'a PageAnswers>,
}

impl<'a> HallPage<'a> {
    /// What is handed out of a page, if there is one.
    pub fn new(page: Option<&'a PageAnswers>) -> HallPage<'a>
        ensures { result.page ≡ page.entry }
    {
        HallPage { page }
    }
}

impl Service for HallPage<'_> {
    ghost answers = { λ old request response new.
        (new ≡ old) × IsHandedOut (option_map (λ page. files_of page.now) old.page) (head_of request) response };

    fn call(
        &mut self,
        request: &Request<Bytes>,
        response: &mut Response,
    ) -> Result<(), AllocError> {
        match self.page {
            Some(page) => page.answer(request, response),
            None => {
                response.status = StatusCode::NOT_FOUND;
                Ok(())
            }
        }
    }
}
