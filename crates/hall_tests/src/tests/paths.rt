//! Paths that would lead out of a folder, or to a file by another name, where they were taken apart.

use super::pages::{sent_for, small_page};
use std::test::Fail;

static PATHS: &[&str] = &[
    "/../index.html",
    "/./index.html",
    "//index.html",
    "/index.html/",
    "/index.html/..",
    "/views/../index.html",
    "/views/..",
    "/views",
    "/views/",
    "/views//board.js",
    "/views%2fboard.js",
    "/%2e%2e/index.html",
    "/..%2findex.html",
    "/..%5cindex.html",
    "/..;/index.html",
    "/%69ndex.html",
    "/index.html%00",
    "/index.html%00.js",
    "/index.htm",
    "/index.html.js",
    "/Index.html",
    "/ndex.html",
    "/etc/passwd",
    "/~root/.ssh/id_rsa",
];

#[test]
fn no_path_leads_elsewhere(rt: HostRuntime) -> Result<(), Fail> {
    let page = small_page(rt.alloc())?;
    for path in PATHS {
        let request = format!(in rt.alloc(); "GET {path} HTTP/1.1\r\nHost: h\r\n\r\n")?;
        let sent = sent_for(&rt, &page, request.as_bytes())?;
        assert!(&rt; sent.as_slice().starts_with(b"HTTP/1.1 404 "), "{path}");
    }
    Ok(())
}
