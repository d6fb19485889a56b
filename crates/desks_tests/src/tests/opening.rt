//! How many displays there can be.

use super::serving::{Part, is_served};
use super::texts::shows;
use desks::{DeskPlaces, Shared};
use displays::{Display, Server};
use entry_store::NoStore;
use std::alloc::Global;
use std::sync::Wait;

const ASKS: &str = r#"{"as":"n1","ask":"board","board":4}"#;

const NO_SUCH_BOARD: &str = r#"{"error":"NoSuchBoard","version":0}"#;

/// Each of so many displays answers.
#[derive(Clone, Copy)]
struct Answers {
    displays: usize,
}

impl Part for Answers {
    fn goes<N: Server, R: Wait>(
        &self,
        _rt: &R,
        alloc: Global,
        _shared: &Shared<N, NoStore>,
        _places: DeskPlaces<N>,
        displays: Vec<Display<N>>,
    ) -> bool {
        if displays.len() != self.displays {
            return false;
        }
        for display in displays {
            let mut display = display;
            if !shows(alloc, &mut display, ASKS, NO_SUCH_BOARD) {
                return false;
            }
        }
        true
    }
}

/// How many displays are wanted, and whether there is a place for them.
static ROWS: [(usize, bool); 6] = [
    (0, false),
    (1, true),
    (2, true),
    (31, true),
    (32, true),
    (33, false),
];

#[test]
fn there_are_1_to_32_displays(rt: HostRuntime) {
    for &(displays, is_place) in &ROWS {
        let served = is_served(&rt, rt.alloc(), displays, &Answers { displays });
        assert!(rt; served == is_place, "of {displays} displays");
    }
}
