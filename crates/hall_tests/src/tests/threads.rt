//! Threads that hand out one page.

use super::pages::{answered, small_page};
use page_answers::PageAnswers;
use std::hash::RandomState;
use std::random::RandomSource;
use std::test::Fail;
use std::thread;

fn is_found<R: RandomSource + AllocGlobal>(rt: &R, page: &PageAnswers) -> bool {
    let Ok(keys) = RandomState::new(rt) else {
        return false;
    };
    match answered(rt.alloc(), keys, page, b"GET / HTTP/1.1\r\nHost: h\r\n\r\n") {
        Ok(sent) => sent.as_slice().starts_with(b"HTTP/1.1 200 "),
        Err(_) => false,
    }
}

#[test]
fn threads_share_a_page(rt: HostRuntime) -> Result<(), Fail> {
    let page = small_page(rt.alloc())?;
    let (one, other) = thread::join(&rt, || is_found(&rt, &page), || is_found(&rt, &page));
    assert!(&rt; one && other);
    Ok(())
}
