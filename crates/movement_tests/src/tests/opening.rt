//! Which movements there are, and the first cause why there is none.

use super::named::of;
use movement::ListError;
use named_movements::{MovementWord, NamedMovement};
use table_terms::{Pair, Side};

const WORDS: [(MovementWord, &str); 4] = [
    (MovementWord::Mitchell, "mitchell"),
    (MovementWord::Howell, "howell"),
    (MovementWord::ShareAndRelay, "share_and_relay"),
    (MovementWord::Web, "web"),
];

/// The first cause of a movement, if there is none.
fn cause(word: MovementWord, tables: u8, rounds: u8, per_set: u8) -> Option<ListError> {
    cause_of(NamedMovement {
        per_set,
        ..of(word, tables, rounds, 0)
    })
}

fn cause_of(named: NamedMovement) -> Option<ListError> {
    named.movement().err()
}

/// With a pair that isn't there.
fn without(word: MovementWord, tables: u8, rounds: u8, side: Side, number: u8) -> NamedMovement {
    NamedMovement {
        absent: Some(Pair { side, number }),
        ..of(word, tables, rounds, 0)
    }
}

#[test]
fn each_word_is_read(rt: HostRuntime) {
    for (word, text) in WORDS {
        assert!(rt; word.text() == text);
        assert!(rt; matches!(MovementWord::of_text(text), Some(read) if read.text() == text));
    }
    assert!(rt; MovementWord::of_text("swiss").is_none());
    assert!(rt; MovementWord::of_text("Howell").is_none());
}

#[test]
fn tables_are_refused_first(rt: HostRuntime) {
    let bad = Some(ListError::BadTables);
    assert!(rt; cause(MovementWord::Mitchell, 2, 0, 9) == bad);
    assert!(rt; cause(MovementWord::Mitchell, 17, 0, 9) == bad);
    assert!(rt; cause(MovementWord::Howell, 2, 0, 9) == bad);
    assert!(rt; cause(MovementWord::Howell, 9, 5, 1) == bad);
    assert!(rt; cause(MovementWord::ShareAndRelay, 2, 1, 1) == bad);
    assert!(rt; cause(MovementWord::ShareAndRelay, 7, 5, 1) == bad);
    assert!(rt; cause(MovementWord::ShareAndRelay, 18, 5, 1) == bad);
    assert!(rt; cause(MovementWord::Web, 4, 3, 1) == bad);
    assert!(rt; cause(MovementWord::Web, 9, 5, 1) == bad);
    assert!(rt; cause(MovementWord::Web, 18, 5, 1) == bad);
}

#[test]
fn then_rounds_are(rt: HostRuntime) {
    let bad = Some(ListError::BadRounds);
    assert!(rt; cause(MovementWord::Mitchell, 6, 6, 9) == bad);
    assert!(rt; cause(MovementWord::Mitchell, 7, 8, 1) == bad);
    assert!(rt; cause(MovementWord::Howell, 5, 10, 9) == bad);
    assert!(rt; cause(MovementWord::Howell, 5, 0, 1) == bad);
    assert!(rt; cause(MovementWord::ShareAndRelay, 8, 9, 1) == bad);
    assert!(rt; cause(MovementWord::Web, 8, 6, 1) == bad);
    assert!(rt; cause(MovementWord::Web, 8, 9, 1) == bad);
    assert!(rt; cause(MovementWord::Web, 8, 0, 1) == bad);
}

#[test]
fn then_boards_are(rt: HostRuntime) {
    let bad = Some(ListError::BadSets);
    assert!(rt; cause(MovementWord::Howell, 5, 9, 0) == bad);
    assert!(rt; cause(MovementWord::Howell, 3, 5, 9) == bad);
    // 15 sets of 8 boards are 120
    assert!(rt; cause(MovementWord::Howell, 8, 15, 8).is_none());
    // 16 sets of 8 are 128
    assert!(rt; cause(MovementWord::ShareAndRelay, 16, 16, 8).is_none());
    assert!(rt; cause(MovementWord::Web, 16, 15, 9) == bad);
}

#[test]
fn then_the_absent_pair_is(rt: HostRuntime) {
    let bad = Some(ListError::BadPair);
    assert!(rt; cause_of(without(MovementWord::Howell, 5, 9, Side::EastWest, 6)) == bad);
    assert!(rt; cause_of(without(MovementWord::Howell, 5, 1, Side::EastWest, 5)).is_none());
    assert!(rt; cause_of(without(MovementWord::Web, 6, 5, Side::NorthSouth, 0)) == bad);
    assert!(rt; cause_of(without(MovementWord::Mitchell, 5, 5, Side::NorthSouth, 6)) == bad);
    assert!(rt; cause_of(without(MovementWord::Mitchell, 5, 5, Side::NorthSouth, 5)).is_none());
}

/// A movement is told as named exactly where it isn't the plain Mitchell.
#[test]
fn the_plain_mitchell_is_as_if_unnamed(rt: HostRuntime) {
    let plain = NamedMovement {
        per_set: 2,
        ..of(MovementWord::Mitchell, 5, 5, 0)
    };
    assert!(rt; matches!(plain.movement(), Ok(movement) if !movement.is_named()));
    let switched = NamedMovement {
        switched: 1,
        ..plain
    };
    assert!(rt; matches!(switched.movement(), Ok(movement) if movement.is_named()));
    let howell = NamedMovement {
        word: MovementWord::Howell,
        ..plain
    };
    assert!(rt;
        matches!(howell.movement(), Ok(movement) if movement.is_named() && movement.boards() == 18)
    );
}
