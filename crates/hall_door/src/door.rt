//! What a request over HTTP gets: the way to the session, or what stands for a page.

ghost use Rattle.std.specs.Prelude.{◌≡◌, ◌++◌, ◌∷◌, [], IsTrue, OnOk, OnErr, option_map};
ghost use Rattle.http_header.specs.FieldName.{is_header_name};
ghost use Rattle.http_header.specs.FieldValue.{is_visible_text};
ghost use Rattle.http_server.specs.Response.{IsBlank, IsResponse, fields_of};
ghost use Rattle.hall_door.specs.SessionRequest.{IsForSession};
ghost use Rattle.hall_door.specs.Letting.{AnswersEntry, IsEntryWith, entry_fields};

use crate::room::{HallPlace, Room};
use crate::session_request::{accept_of, is_for_session, lists_upgrade};
use bytes::Bytes;
use http::{HeaderName, HeaderValue, Request, StatusCode};
use http_server::{Response, Service};
use std::alloc::{AllocError, Global};

/// Answers requests over HTTP: who asks for the session is let in by a 101, if it may enter and there is room, and all other
/// requests are answered by what stands for pages.
#[derive(Drop)]
pub struct Door<'a, P> {
    alloc: Global,
    // The origin that may enter, or any.
    origin: Option<&'a str>,
    room: &'a Room,
    page: P,
    // The place of who was let in.
    place: Option<HallPlace<'a>>,
}

impl<'a, P> Door<'a, P> {
    /// A door that lets this origin in, or any, as long as there is room, and has such pages.
    pub fn new(alloc: Global, origin: Option<&'a str>, room: &'a Room, page: P) -> Door<'a, P> {
        Door {
            alloc,
            origin,
            room,
            page,
            place: None,
        }
    }

    /// The place of who was let in, once.
    pub fn take_place(&mut self) -> Option<HallPlace<'a>> {
        self.place.take()
    }

    // Answers a request for the session that may enter, where its key is answered so.
    fn let_in(&mut self, accept: &[u8; 28], response: &mut Response) -> Result<(), AllocError>
        requires { IsBlank response.old }
        ensures entry { OnOk result (IsEntryWith accept.now response.new) }
        ensures page { self.new.page ≡ self.old.page }
        ensures same { OnErr result (self.new ≡ self.old) }
    {
        let Some(place) = self.room.take() else {
            return refuse(response, StatusCode::SERVICE_UNAVAILABLE);
        };
        invite(self.alloc, accept, response)?;
        self.place = Some(place);
        Ok(())
    }
}

impl<'a, P: Service> Service for Door<'a, P> {
    ghost answers = { λ old request response new.
        (IsForSession request → AnswersEntry (option_map (λ origin. origin.now) old.origin) request response
        × (new.page ≡ old.page))
        × (¬ IsForSession request → P.answers old.page request response new.page) };

    fn call(
        &mut self,
        request: &Request<Bytes>,
        response: &mut Response,
    ) -> Result<(), AllocError> {
        if !is_for_session(request) {
            return self.page.call(request, response);
        }
        match accept_of(self.origin, request) {
            Ok(accept) if lists_upgrade(request) => self.let_in(&accept, response),
            Ok(_) => refuse(response, StatusCode::UPGRADE_REQUIRED),
            Err(status) => refuse(response, status),
        }
    }
}

// The 101 that lets a request in whose key is answered so.
fn invite(alloc: Global, accept: &[u8; 28], response: &mut Response) -> Result<(), AllocError>
    requires { IsBlank response.old }
    ensures { OnOk result (IsResponse 101 (entry_fields accept.now) [] response.new) }
{
    let Ok(value) = HeaderValue::from_bytes(alloc, accept.as_slice()) else {
        return Err(AllocError);
    };
    response.status = StatusCode::SWITCHING_PROTOCOLS;
    add(response, "connection", "Upgrade")?;
    add(response, "upgrade", "websocket")?;
    response.add_header(HeaderName::from_static("sec-websocket-accept"), value)
}

// Answers by a status. Who is refused is asked to go.
fn refuse(response: &mut Response, status: StatusCode) -> Result<(), AllocError>
    ensures { response.new.status ≡ status }
{
    response.status = status;
    if status == StatusCode::UPGRADE_REQUIRED {
        add(response, "upgrade", "websocket")?;
        add(response, "sec-websocket-version", "13")?;
    }
    add(response, "connection", "close")
}

// Adds a field.
fn add(response: &mut Response, name: &'static str, value: &'static str) -> Result<(), AllocError>
    requires name { IsTrue (is_header_name name.now) }
    requires value { IsTrue (is_visible_text value.now) }
    ensures fields { OnOk result
        (fields_of response.new ≡ fields_of response.old ++ (name.now, value.now) ∷ []) }
    ensures status { response.new.status ≡ response.old.status }
    ensures body { response.new.body ≡ response.old.body }
{
    response.add_header(
        HeaderName::from_static(name),
        HeaderValue::from_static(value),
    )
}
