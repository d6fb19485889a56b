//! Movements by their words.

use named_movements::{MovementWord, NamedMovement};

/// A movement with one board in a set, in which every pair is there.
pub(super) fn of(word: MovementWord, tables: u8, rounds: u8, switched: u8) -> NamedMovement {
    NamedMovement {
        word,
        tables,
        rounds,
        per_set: 1,
        switched,
        absent: None,
    }
}
