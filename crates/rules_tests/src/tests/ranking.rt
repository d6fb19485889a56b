//! What scores earn in matchpoints (Law 78A).

use scoring::matchpoints;
use std::alloc::Global;

/// Scores, and the units that they earn. Of the last three boards two tables have each score, and beat all that stand
/// before them.
static BOARDS: [(&[i32], &[u32]); 7] = [
    (&[420, 450, 420], &[1, 4, 1]),
    (&[50], &[0]),
    (&[], &[]),
    (&[-100, 620, -100, 650, -100, 620], &[2, 7, 2, 10, 2, 7]),
    (&[-200, -200], &[1, 1]),
    (
        &[
            -200, -200, -190, -190, -180, -180, -170, -170, -160, -160, -150, -150, -140, -140,
            -130, -130,
        ],
        &[1, 1, 5, 5, 9, 9, 13, 13, 17, 17, 21, 21, 25, 25, 29, 29],
    ),
    (
        &[
            -200, -200, -190, -190, -180, -180, -170, -170, -160, -160, -150, -150, -140, -140,
            -130, -130, -120, -120, -110, -110, -100, -100, -90, -90, -80, -80, -70, -70, -60, -60,
            -50, -50, -40, -40, -30, -30, -20, -20, -10, -10, 0, 0, 10, 10, 20, 20, 30, 30, 40, 40,
            50, 50, 60, 60, 70, 70, 80, 80, 90, 90, 100, 100, 110, 110,
        ],
        &[
            1, 1, 5, 5, 9, 9, 13, 13, 17, 17, 21, 21, 25, 25, 29, 29, 33, 33, 37, 37, 41, 41, 45,
            45, 49, 49, 53, 53, 57, 57, 61, 61, 65, 65, 69, 69, 73, 73, 77, 77, 81, 81, 85, 85, 89,
            89, 93, 93, 97, 97, 101, 101, 105, 105, 109, 109, 113, 113, 117, 117, 121, 121, 125,
            125,
        ],
    ),
];

/// Whether the scores of a board, which are 64 at most, earn these units.
fn earn(alloc: Global, scores: &[i32], units: &[u32]) -> bool {
    if scores.len() > 64 {
        return false;
    }
    match matchpoints(alloc, scores) {
        Ok(earned) => earned.as_slice() == units,
        Err(_) => false,
    }
}

/// How many scores there are of boards on which each beats all before it.
static COUNTS: [u16; 3] = [65, 1_000, 65_535];

/// Whether scores that climb by one earn two units for each that stands before them.
fn climb(alloc: Global, count: u16) -> bool {
    let mut scores = Vec::new(alloc);
    for score in 0..count {
        if scores.push(i32::from(score)).is_err() {
            return false;
        }
    }
    earn_twice_their_places(alloc, scores.as_slice())
}

/// Whether the scores of a board, which are 65,535 at most, earn twice their places each.
fn earn_twice_their_places(alloc: Global, scores: &[i32]) -> bool {
    if scores.len() > 65_535 {
        return false;
    }
    match matchpoints(alloc, scores) {
        Ok(earned) => are_twice_their_places(earned.as_slice()),
        Err(_) => false,
    }
}

/// Whether each number is twice its place, from 0.
fn are_twice_their_places(numbers: &[u32]) -> bool {
    for (place, number) in numbers.iter().enumerate() {
        if *number as usize != place.wrapping_mul(2) {
            return false;
        }
    }
    true
}

#[test]
fn many_scores_find_their_memory(rt: HostRuntime) {
    for count in &COUNTS {
        assert!(rt; climb(rt.alloc(), *count));
    }
}

#[test]
fn boards_are_scored_in_matchpoints(rt: HostRuntime) {
    for (scores, units) in &BOARDS {
        assert!(rt; earn(rt.alloc(), scores, units));
    }
}
