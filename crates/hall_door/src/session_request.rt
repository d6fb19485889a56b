//! Which requests ask for a session, and which of them may enter.

ghost use Rattle.std.specs.Prelude.{◌≡◌, ◌≢◌, ◌↔◌, IsTrue, IfOk, IfErr, IfSome, IfNone, OnErr, option_map, ℕ, List, codes};
ghost use Rattle.hall_door.specs.SessionRequest.{HasValue, IsForSession, IsUpgrade, MayEnter, first_value};
ghost use Rattle.websocket.specs.Handshake.{IsValidKey, accept_key_of};
ghost use Rattle.hall_door.specs.Origins.{is_let_in, is_origin, are_all_of, origins_of};

use bytes::Bytes;
use http::{HeaderValue, Method, Request, StatusCode, Version};
use websocket::handshake::server::accept_key;

// Where a page finds its session. A client that is no page may ask for a WebSocket at any other path.
const SESSION: &str = "/session";

/// Whether a request is for the session.
pub(crate) fn is_for_session(request: &Request<Bytes>) -> bool
    ensures { IsTrue result ↔ IsForSession request.now }
{
    is_upgrade(request) || request.uri().path() == SESSION
}

// Whether a request asks for a WebSocket (RFC 6455, 4.2.1, item 3).
fn is_upgrade(request: &Request<Bytes>) -> bool
    ensures { IsTrue result ↔ IsUpgrade request.now }
{
    match request.headers().get("upgrade") {
        Some(value) => value.as_bytes().eq_ignore_ascii_case(b"websocket"),
        None => false,
    }
}

/// What answers the key of a request that may enter (RFC 6455, 4.2.2), or the status that refuses it: another method, no
/// WebSocket or another version of it, no key, another origin, in this order.
pub(crate) fn accept_of(
    allowed: Option<&str>,
    request: &Request<Bytes>,
) -> Result<[u8; 28], StatusCode>
    ensures may { IfOk result (λ accept. MayEnter (option_map (λ origin. origin.now) allowed.entry) request.now accept) }
    ensures refusal { IfErr result (λ status. status ≢ 101) }
    ensures no_other { OnErr result ((accept : List ℕ) →
        ¬ MayEnter (option_map (λ origin. origin.now) allowed.entry) request.now accept) }
{
    if *request.method() != Method::GET {
        return Err(StatusCode::METHOD_NOT_ALLOWED);
    }
    if !is_upgrade(request) || !has_version(request) {
        return Err(StatusCode::UPGRADE_REQUIRED);
    }
    let Some(accept) = key_answer(request) else {
        return Err(StatusCode::BAD_REQUEST);
    };
    if is_let_in(allowed, request) {
        Ok(accept)
    } else {
        Err(StatusCode::FORBIDDEN)
    }
}

/// Whether a request lists the upgrade among what it asks of the connection (4.2.1, item 4), in HTTP/1.1 or later. Without that
/// `http_server` hands nothing on.
pub(crate) fn lists_upgrade(request: &Request<Bytes>) -> bool {
    if request.version() == Version::HTTP_10 {
        return false;
    }
    for value in request.headers().get_all("connection").iter() {
        if names_upgrade(value) {
            return true;
        }
    }
    false
}

// Whether one of the pieces between commas is the upgrade.
fn names_upgrade(value: &HeaderValue) -> bool {
    for piece in value.as_bytes().split(|byte| *byte == b',') {
        if piece.trim_ascii().eq_ignore_ascii_case(b"upgrade") {
            return true;
        }
    }
    false
}

// Whether a request asks for the version of RFC 6455 (4.2.1, item 6).
fn has_version(request: &Request<Bytes>) -> bool
    ensures { IsTrue result ↔ HasValue (first_value request.now (codes "sec-websocket-version")) (λ bytes. bytes ≡ codes "13") }
{
    match request.headers().get("sec-websocket-version") {
        Some(value) => value.as_bytes() == b"13".as_slice(),
        None => false,
    }
}

// What answers the key of a request, if it has one (4.2.1, item 5).
fn key_answer(request: &Request<Bytes>) -> Option<[u8; 28]>
    ensures found { IfSome result (λ accept. HasValue (first_value request.now (codes "sec-websocket-key"))
        (λ bytes. IsValidKey bytes × (accept ≡ accept_key_of bytes))) }
    ensures none { IfNone result (¬ HasValue (first_value request.now (codes "sec-websocket-key")) IsValidKey) }
{
    match request.headers().get("sec-websocket-key") {
        Some(key) => match accept_key(key.as_bytes()) {
            Ok(accept) => Some(accept),
            Err(_) => None,
        },
        None => None,
    }
}

// Whether the origins that a request names are let in. A client that is no browser names none.
fn is_let_in(allowed: Option<&str>, request: &Request<Bytes>) -> bool
    ensures { result ≡ is_let_in (option_map (λ origin. origin.now) allowed.entry) request.now }
{
    match allowed {
        Some(allowed) => names_only(request, allowed),
        None => true,
    }
}

// Whether each origin that the request names is this one.
fn names_only(request: &Request<Bytes>, allowed: &str) -> bool
    ensures { result ≡ are_all_of allowed.now (origins_of request.now) }
{
    request
        .headers()
        .get_all("origin")
        .iter()
        .all(|origin| is_origin(origin, allowed))
}

// Whether an origin is this one.
fn is_origin(origin: &HeaderValue, allowed: &str) -> bool
    ensures { result ≡ is_origin allowed.now origin.now }
{
    origin.as_bytes() == allowed.as_bytes()
}
