//! What words ask for that are understood.

use super::running::words_of;
use server_words::{
    Checking, JournalCopy, Serving, SessionFiles, SessionSource, Words, read_words,
};
use std::alloc::Global;
use std::net::{IpAddr, Ipv4Addr, Ipv6Addr};

const FILES: SessionFiles<'static> = SessionFiles {
    session: "s.json",
    deals: "d.pbn",
};

// What is served where only what must be said is said.
const DEFAULTS: Serving<'static> = Serving {
    source: SessionSource::Files(FILES),
    port: 8080,
    displays: 4,
    workers: 2,
    connections: 0,
    clients: 1_000,
    idle: 300,
    origin: None,
    page: None,
    log: None,
    address: IpAddr::V4(Ipv4Addr::LOCALHOST),
};

const LEAST: Serving<'static> = Serving {
    port: 1,
    displays: 1,
    workers: 0,
    clients: 1,
    idle: 1,
    ..DEFAULTS
};

const MOST: Serving<'static> = Serving {
    port: 65_535,
    displays: 32,
    workers: 16,
    connections: 1_000_000,
    clients: 10_000,
    idle: 86_400,
    origin: Some("https://bridge.example.org"),
    page: Some("client"),
    log: Some("-"),
    address: IpAddr::V6(Ipv6Addr::UNSPECIFIED),
    ..DEFAULTS
};

const LOGGED: Serving<'static> = Serving {
    log: Some("evening.log"),
    ..DEFAULTS
};

const KEPT: Serving<'static> = Serving {
    source: SessionSource::Journal("j", Some(FILES)),
    ..DEFAULTS
};

const KEPT_ALONE: Serving<'static> = Serving {
    source: SessionSource::Journal("j", None),
    ..DEFAULTS
};

const COPY: JournalCopy<'static> = JournalCopy {
    journal: "j",
    to: "k",
};

const CHECK: Checking<'static> = Checking {
    session: "s.json",
    deals: Some("d.pbn"),
};

const CHECK_SCRIPT: Checking<'static> = Checking {
    session: "my.script",
    deals: None,
};

static LINES: &[(&str, Words<'static>)] = &[
    ("script", Words::Script),
    (
        "serve --session s.json --deals d.pbn --port 8080",
        Words::Serve(DEFAULTS),
    ),
    (
        "serve --port=8080 --deals=d.pbn --session=s.json",
        Words::Serve(DEFAULTS),
    ),
    (
        "serve --session s.json --deals d.pbn --port 1 --displays 1 --workers 0 --connections 0 --clients 1 --idle 1",
        Words::Serve(LEAST),
    ),
    (
        "serve --log - --listen :: --page client --origin https://bridge.example.org --idle 86400 --clients 10000 --connections 1000000 --workers 16 --displays 32 --port 65535 --deals d.pbn --session s.json",
        Words::Serve(MOST),
    ),
    (
        "serve --session s.json --deals d.pbn --port 8080 --log=evening.log",
        Words::Serve(LOGGED),
    ),
    (
        "serve --session s.json --deals d.pbn --journal j --port 8080",
        Words::Serve(KEPT),
    ),
    (
        "serve --journal=j --deals=d.pbn --session=s.json --port=8080",
        Words::Serve(KEPT),
    ),
    ("serve --journal j --port 8080", Words::Serve(KEPT_ALONE)),
    ("serve --port 8080 --journal=j", Words::Serve(KEPT_ALONE)),
    ("audit --journal j", Words::Audit("j")),
    ("copy --journal j --to k", Words::Copy(COPY)),
    ("check --deals=d.pbn --session s.json", Words::Check(CHECK)),
    ("check --session my.script", Words::Check(CHECK_SCRIPT)),
];

// Whether the words of a line ask for this.
fn asks_for(alloc: Global, line: &str, asked: &Words) -> bool {
    let words = words_of(alloc, line);
    matches!(read_words(alloc, words.as_slice()), Ok(read) if read == *asked)
}

#[test]
fn each_line_asks(rt: HostRuntime) {
    for (line, asked) in LINES {
        assert!(rt; asks_for(rt.alloc(), line, asked), "{line}");
    }
}
