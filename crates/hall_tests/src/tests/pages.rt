//! Answers byte for byte, as `http_server` sends them.

use bytes::Bytes;
use http_server::{Config, Connection, serve};
use page_answers::{PageAnswers, PageService};
use page_files::PageFile;
use std::alloc::{AllocError, Global};
use std::hash::RandomState;
use std::io;
use std::random::RandomSource;
use std::test::Fail;

// What each answer says of itself.
const GUARDS: &str =
    "cache-control: no-cache\r\nx-content-type-options: nosniff\r\nreferrer-policy: no-referrer\r\ncontent-security-policy: default-src 'none'; script-src 'self'; style-src 'self'; img-src 'self'; connect-src 'self'; base-uri 'none'; form-action 'none'; require-trusted-types-for 'script'; trusted-types 'none'; frame-ancestors 'none'\r\n";

// What stands for the compressed index: a text whose digest FIPS 180-4's examples have, as they have that of `abc`.
const PACKED: &str = "abcdbcdecdefdefgefghfghighijhijkijkljklmklmnlmnomnopnopq";

// Requests, each with its status and with what follows the guards. The digest of no byte is well known.
static ANSWERS: &[(&str, &str, &str)] = &[
    (
        "GET / HTTP/1.1\r\nHost: h\r\n\r\n",
        "200 OK",
        "vary: accept-encoding\r\netag: \"ba7816bf8f01cfea414140de5dae2223b00361a396177a9cb410ff61f20015ad\"\r\ncontent-type: text/html; charset=utf-8\r\ncontent-length: 3\r\n\r\nabc",
    ),
    (
        "GET /index.html?version=2 HTTP/1.1\r\nHost: h\r\n\r\n",
        "200 OK",
        "vary: accept-encoding\r\netag: \"ba7816bf8f01cfea414140de5dae2223b00361a396177a9cb410ff61f20015ad\"\r\ncontent-type: text/html; charset=utf-8\r\ncontent-length: 3\r\n\r\nabc",
    ),
    (
        "HEAD /index.html HTTP/1.1\r\nHost: h\r\n\r\n",
        "200 OK",
        "vary: accept-encoding\r\netag: \"ba7816bf8f01cfea414140de5dae2223b00361a396177a9cb410ff61f20015ad\"\r\ncontent-type: text/html; charset=utf-8\r\ncontent-length: 3\r\n\r\n",
    ),
    (
        "GET /views/board.js HTTP/1.1\r\nHost: h\r\n\r\n",
        "200 OK",
        "vary: accept-encoding\r\netag: \"e3b0c44298fc1c149afbf4c8996fb92427ae41e4649b934ca495991b7852b855\"\r\ncontent-type: text/javascript; charset=utf-8\r\ncontent-length: 0\r\n\r\n",
    ),
    (
        "GET / HTTP/1.1\r\nHost: h\r\nIf-None-Match: \"x\", W/\"ba7816bf8f01cfea414140de5dae2223b00361a396177a9cb410ff61f20015ad\"\r\n\r\n",
        "304 Not Modified",
        "vary: accept-encoding\r\netag: \"ba7816bf8f01cfea414140de5dae2223b00361a396177a9cb410ff61f20015ad\"\r\n\r\n",
    ),
    (
        "HEAD / HTTP/1.1\r\nHost: h\r\nIf-None-Match: *\r\n\r\n",
        "304 Not Modified",
        "vary: accept-encoding\r\netag: \"ba7816bf8f01cfea414140de5dae2223b00361a396177a9cb410ff61f20015ad\"\r\n\r\n",
    ),
    (
        "GET / HTTP/1.1\r\nHost: h\r\nIf-None-Match: \"e3b0c44298fc1c149afbf4c8996fb92427ae41e4649b934ca495991b7852b855\"\r\n\r\n",
        "200 OK",
        "vary: accept-encoding\r\netag: \"ba7816bf8f01cfea414140de5dae2223b00361a396177a9cb410ff61f20015ad\"\r\ncontent-type: text/html; charset=utf-8\r\ncontent-length: 3\r\n\r\nabc",
    ),
    (
        "GET /nowhere.js HTTP/1.1\r\nHost: h\r\n\r\n",
        "404 Not Found",
        "content-type: text/plain; charset=utf-8\r\ncontent-length: 22\r\n\r\nThere is no such file.",
    ),
    (
        "HEAD /nowhere.js HTTP/1.1\r\nHost: h\r\n\r\n",
        "404 Not Found",
        "content-type: text/plain; charset=utf-8\r\ncontent-length: 22\r\n\r\n",
    ),
    (
        "GET / HTTP/1.1\r\nHost: h\r\nAccept-Encoding: br, gzip\r\n\r\n",
        "200 OK",
        "vary: accept-encoding\r\netag: \"248d6a61d20638b8e5c026930c3e6039a33ce45964ff2167f6ecedd419db06c1\"\r\ncontent-type: text/html; charset=utf-8\r\ncontent-encoding: gzip\r\ncontent-length: 56\r\n\r\nabcdbcdecdefdefgefghfghighijhijkijkljklmklmnlmnomnopnopq",
    ),
    (
        "HEAD / HTTP/1.1\r\nHost: h\r\nAccept-Encoding: gzip\r\n\r\n",
        "200 OK",
        "vary: accept-encoding\r\netag: \"248d6a61d20638b8e5c026930c3e6039a33ce45964ff2167f6ecedd419db06c1\"\r\ncontent-type: text/html; charset=utf-8\r\ncontent-encoding: gzip\r\ncontent-length: 56\r\n\r\n",
    ),
    (
        "GET / HTTP/1.1\r\nHost: h\r\nAccept-Encoding: gzip\r\nIf-None-Match: \"248d6a61d20638b8e5c026930c3e6039a33ce45964ff2167f6ecedd419db06c1\"\r\n\r\n",
        "304 Not Modified",
        "vary: accept-encoding\r\netag: \"248d6a61d20638b8e5c026930c3e6039a33ce45964ff2167f6ecedd419db06c1\"\r\n\r\n",
    ),
    (
        "GET / HTTP/1.1\r\nHost: h\r\nIf-None-Match: \"248d6a61d20638b8e5c026930c3e6039a33ce45964ff2167f6ecedd419db06c1\"\r\n\r\n",
        "200 OK",
        "vary: accept-encoding\r\netag: \"ba7816bf8f01cfea414140de5dae2223b00361a396177a9cb410ff61f20015ad\"\r\ncontent-type: text/html; charset=utf-8\r\ncontent-length: 3\r\n\r\nabc",
    ),
    (
        "GET /views/board.js HTTP/1.1\r\nHost: h\r\nAccept-Encoding: gzip\r\n\r\n",
        "200 OK",
        "vary: accept-encoding\r\netag: \"e3b0c44298fc1c149afbf4c8996fb92427ae41e4649b934ca495991b7852b855\"\r\ncontent-type: text/javascript; charset=utf-8\r\ncontent-length: 0\r\n\r\n",
    ),
    (
        "GET /index.html.gz HTTP/1.1\r\nHost: h\r\nAccept-Encoding: gzip\r\n\r\n",
        "200 OK",
        "vary: accept-encoding\r\netag: \"248d6a61d20638b8e5c026930c3e6039a33ce45964ff2167f6ecedd419db06c1\"\r\ncontent-type: application/octet-stream\r\ncontent-length: 56\r\n\r\nabcdbcdecdefdefgefghfghighijhijkijkljklmklmnlmnomnopnopq",
    ),
    (
        "PUT /index.html HTTP/1.1\r\nHost: h\r\nContent-Length: 2\r\n\r\nno",
        "405 Method Not Allowed",
        "allow: GET, HEAD\r\ncontent-type: text/plain; charset=utf-8\r\ncontent-length: 37\r\n\r\nFiles are read by GET and HEAD alone.",
    ),
];

fn file(alloc: Global, name: &str, text: &'static str) -> Result<PageFile, AllocError> {
    Ok(PageFile {
        name: String::from_str(alloc, name)?,
        bytes: Bytes::from_static(text.as_bytes()),
    })
}

/// A page of two files, one of which has a compressed form.
pub(super) fn small_page(alloc: Global) -> Result<PageAnswers, AllocError> {
    let mut files = Vec::new(alloc);
    files.push(file(alloc, "views/board.js", "")?)?;
    files.push(file(alloc, "index.html.gz", PACKED)?)?;
    files.push(file(alloc, "index.html", "abc")?)?;
    PageAnswers::new(alloc, files)
}

/// All that is sent for a request. The connection is let go by a call: any other way out takes it apart field by field.
pub(super) fn answered(
    alloc: Global,
    keys: RandomState,
    page: &PageAnswers,
    request: &[u8],
) -> io::Result<Vec<u8>> {
    let mut connection = Connection::new(alloc, keys, Config::default());
    let mut unread = request;
    let mut sent = Vec::new(alloc);
    let served = serve(
        &mut connection,
        &mut PageService { page },
        &mut unread,
        &mut sent,
    );
    drop(connection);
    served?;
    Ok(sent)
}

/// The same, over keys of its own.
pub(super) fn sent_for<R: RandomSource + AllocGlobal>(
    rt: &R,
    page: &PageAnswers,
    request: &[u8],
) -> Result<Vec<u8>, Fail> {
    Ok(answered(rt.alloc(), RandomState::new(rt)?, page, request)?)
}

#[test]
fn each_request_gets_its_answer(rt: HostRuntime) -> Result<(), Fail> {
    let page = small_page(rt.alloc())?;
    for (request, status, rest) in ANSWERS {
        let want = format!(in rt.alloc(); "HTTP/1.1 {status}\r\n{GUARDS}{rest}")?;
        let sent = sent_for(&rt, &page, request.as_bytes())?;
        assert!(&rt; sent.as_slice() == want.as_bytes(), "to {request}");
    }
    Ok(())
}

// What is said of codings, and whether it is that gzip is understood.
static CODINGS: &[(&str, bool)] = &[
    ("gzip", true),
    ("GZip", true),
    ("gzip, deflate, br, zstd", true),
    ("deflate,gzip", true),
    ("br , \tgzip\t , x", true),
    (", ,gzip", true),
    ("identity\r\nAccept-Encoding: gzip", true),
    ("", false),
    ("*", false),
    ("identity", false),
    ("x-gzip", false),
    ("gzipped", false),
    ("gzi p", false),
    ("gzip;q=0", false),
    ("br, gzip ; q=0.5", false),
    ("\"gzip\"", false),
    ("br gzip", false),
];

#[test]
fn a_compressed_form_is_for_whoever_understands_it(rt: HostRuntime) -> Result<(), Fail> {
    let page = small_page(rt.alloc())?;
    for (said, is_understood) in CODINGS {
        let request = format!(in rt.alloc();
            "GET / HTTP/1.1\r\nHost: h\r\nAccept-Encoding: {said}\r\n\r\n"
        )?;
        let sent = sent_for(&rt, &page, request.as_bytes())?;
        let is_packed = sent.as_slice().ends_with(PACKED.as_bytes());
        assert_eq!(&rt; is_packed, *is_understood, "where {said} is said");
    }
    Ok(())
}
