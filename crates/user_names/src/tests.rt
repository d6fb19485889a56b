//! Which texts may be shown, by Unicode's tables, and how long names and numbers are.

use crate::member_number::MemberNumber;
use crate::shown_name::ShownName;
use crate::shown_text::is_shown_text;

#[test]
fn texts_that_are_shown(rt: HostRuntime) {
    let rows = [
        "a",
        "Anna Müller",
        "O'Brien-Łukasz, 3rd",
        "王小明",
        "\u{5D0}\u{5E0}\u{5D4}",
        "👩\u{200D}👧",
        "\u{AD}",
        "a\u{A0}b",
        "\u{10FFFF}",
    ];
    for text in rows {
        assert!(rt; is_shown_text(text), "{text}");
    }
}

#[test]
fn texts_that_are_not(rt: HostRuntime) {
    let rows = [
        "",
        " ",
        " a",
        "a ",
        "\u{A0}a",
        "a\u{3000}",
        "a\u{1680}",
        "\u{202F}a",
        "\u{0}",
        "a\tb",
        "a\nb",
        "a\u{1F}b",
        "a\u{7F}b",
        "a\u{80}b",
        "a\u{9F}b",
        "a\u{61C}b",
        "a\u{200E}b",
        "a\u{200F}b",
        "a\u{2028}b",
        "a\u{2029}b",
        "a\u{202A}b",
        "a\u{202E}b",
        "a\u{2066}b",
        "a\u{2069}b",
    ];
    for text in rows {
        assert!(rt; !is_shown_text(text), "{text}");
    }
}

#[test]
fn lengths(rt: HostRuntime) {
    let sixteen = "0123456789ABCDEf";
    let sixty_four = "0123456789abcdef0123456789abcdef0123456789abcdef0123456789abcdeü";
    assert!(rt;
        ShownName::new("0123456789abcdef0123456789abcdef0123456789abcdef0123456789abcdef").is_ok()
    );
    assert!(rt; ShownName::new(sixty_four).is_err());
    assert!(rt; ShownName::new("").is_err());
    assert!(rt; ShownName::or_none("").is_ok());
    assert!(rt; ShownName::or_none(" ").is_err());
    assert!(rt; MemberNumber::new(sixteen).is_ok());
    assert!(rt; MemberNumber::new("0123456789ABCDEfg").is_err());
    assert!(rt; MemberNumber::new("").is_err());
    assert!(rt; MemberNumber::new("12-3").is_err());
}
