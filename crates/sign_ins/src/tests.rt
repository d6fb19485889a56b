//! Names to sign in by, and tokens.

use crate::{SignInToken, free_name, sign_in_base};
use std::alloc::Global;
use user_names::Name;

/// Names to show, and what is made of them.
static NAMES: [(&str, &str); 10] = [
    ("Anna Müller", "anna"),
    ("Jürgen", "jurgen"),
    ("Łukasz Żak", "lukasz"),
    ("Øystein Æsop", "oystein"),
    ("Weiß", "weiss"),
    ("José-María", "josemaria"),
    ("  李", "guest"),
    ("ΑΒΓ δ7", "7"),
    ("O'Neill", "oneill"),
    (
        "Wolfeschlegelsteinhausenbergerdorff",
        "wolfeschlegelsteinhausen",
    ),
];

fn becomes(alloc: Global, shown: &str, base: &str) -> bool {
    match sign_in_base(alloc, shown) {
        Ok(made) => made.as_str() == base,
        Err(_) => false,
    }
}

#[test]
fn names(rt: HostRuntime) {
    for row in &NAMES {
        assert!(rt; becomes(rt.alloc(), row.0, row.1));
    }
}

fn is_free(alloc: Global, base: &str, taken: &str, free: &str) -> bool {
    let Ok(taken) = Name::new(taken) else {
        return false;
    };
    match free_name(alloc, base, &[taken]) {
        Ok(Some(name)) => name.as_str() == free,
        _ => false,
    }
}

#[test]
fn names_that_are_taken(rt: HostRuntime) {
    assert!(rt; is_free(rt.alloc(), "anna", "anna", "anna2"));
    assert!(rt; is_free(rt.alloc(), "ben", "anna", "ben"));
}

fn is_text(alloc: Global, bytes: &[u8; 20], text: &str) -> bool {
    match SignInToken::new(alloc, bytes) {
        Ok(token) => token.text.as_str() == text,
        Err(_) => false,
    }
}

#[test]
fn tokens(rt: HostRuntime) {
    let bytes = [
        31, 32, 18, 0, 0, 0, 0, 0, 0, 0, 0, 0, 0, 0, 0, 0, 0, 0, 0, 255,
    ];
    assert!(rt; is_text(rt.alloc(), &bytes, "z0j0-0000-0000-0000-000z"));
}
