//! What a worker finds, shown while clients are served beside one another.

use super::client::Turn::{Says, Sends, ShakesHands};
use super::client::{Turn, connect, is_answered, is_ended, is_told};
use super::running::ends;
use super::serving::{UNKEPT, port_and_line};
use std::io::{Read, Write};
use std::net::Net;
use std::test::Fail;
use std::time::{Clock, Duration};
use std::{io, thread};

// A director signs in.
static DIRECTOR: &[Turn] = &[
    ShakesHands,
    Says(r#"{"hello":"d","token":"abc"}"#, r#"{"hello":"d"}"#),
];

// A scorer signs in, and enters and confirms a contract whose opening lead is declarer's: no card of it can be played. A
// text of this length has it in two bytes.
static SCORER: &[Turn] = &[
    ShakesHands,
    Says(r#"{"hello":"k","token":"abc"}"#, r#"{"hello":"k"}"#),
    Sends(
        b"\x81\xfe\0\xe6\0\0\0\0{\"do\":[{\"board\":1,\"cmd\":\"Enter\",\"play\":[\"S2\"],\"result\":{\"by\":\"N\",\"doubled\":0,\"level\":4,\"strain\":\"S\",\"tricks\":10},\"table\":1},{\"board\":1,\"cmd\":\"Confirm\",\"result\":{\"by\":\"N\",\"doubled\":0,\"level\":4,\"strain\":\"S\",\"tricks\":10},\"table\":1}]}",
        b"\x81\x36{\"answers\":[\"ok\",\"ok\"],\"first\":1,\"last\":2,\"version\":2}",
    ),
];

const ASKS: &str = r#"{"ask":"costs","board":1,"table":1}"#;

const COSTS: &str = r#"{"costs":{"board":1,"costs":{"not_a_play":1},"table":1},"version":3}"#;

// Whether the director is shown what the play costs within so many queries, one each millisecond.
fn is_shown<R: Clock, S: Read + Write>(rt: &R, director: &mut S) -> bool {
    for _ in 0..1000 {
        if is_told(director, ASKS, COSTS) {
            return true;
        }
        thread::sleep(rt, Duration::from_millis(1));
    }
    false
}

// Whether the director, who only asks, is shown what the scorer's result costs, while both are served.
fn is_analysed<R: Net + Clock>(rt: &R, port: u16) -> bool {
    let (Some(mut director), Some(mut scorer)) = (connect(rt, port), connect(rt, port)) else {
        return false;
    };
    is_answered(&mut director, DIRECTOR)
        && is_answered(&mut scorer, SCORER)
        && is_shown(rt, &mut director)
        && is_ended(&mut scorer)
        && is_ended(&mut director)
}

// Serves two clients at once. The session's budget is 0: no table is found, while a play whose first card is illegal needs
// no visit.
const WORDS: &str =
    "serve --session out/session --deals out/deals --displays 2 --workers 1 --connections 1";

/// Where what the worker finds isn't shown, the test stops: the server would wait for another client.
#[test]
fn shows_what_a_worker_finds(rt: HostRuntime) -> Result<(), Fail> {
    let (port, line) = port_and_line(&rt, WORDS)?;
    let server_rt = rt.clone()?;
    let server = thread::spawn(&rt, move || {
        ends(
            &server_rt,
            line.as_str(),
            &mut io::empty(),
            &(0, "", UNKEPT),
        )
    })?;
    assert!(rt; is_analysed(&rt, port));
    assert!(rt; server.join(&rt));
    Ok(())
}
