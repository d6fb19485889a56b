ghost use Rattle.std.specs.Prelude.{◌≡◌, [], IfOk, OnOk, IfErr, IfSome, IfNone};
ghost use Rattle.pbn_records.specs.Tags as tags;
ghost use Rattle.pbn_records.specs.Reads.{Reads, IsRefused};
ghost use Rattle.pbn_records.specs.Values.{no_values};
ghost use Rattle.pbn_records.specs.At.{IsStateAfter};
ghost use Rattle.pbn_records.specs.InText.{HasRead};
ghost use Rattle.pbn_records.specs.Each.{KnowsFirst, IsUnknown, HasFirst};

use crate::board_set::BoardSet;
use crate::deals_error::DealsError;
use crate::known_boards::KnownBoards;
use crate::state::State;
use pbn_pieces::Pieces;
use std::alloc::Global;

/// Reads the boards from 1 to `boards`. Only the set takes memory: what is wrong with a text is said without.
pub fn read_deals(alloc: Global, text: &[u8], boards: u8) -> Result<BoardSet, DealsError>
    ensures set { IfOk result (Reads text.now boards) }
    ensures refused { IfErr result (λ error. IsRefused error text.now boards) }
{
    let known = match read_games(alloc, text, boards) {
        Ok(state) => state.known,
        Err(error) => return Err(error),
    };
    if let Some(number) = unknown_board(&known, boards) {
        return Err(DealsError::MissingBoard(number));
    }
    match board_set(alloc, &known, boards) {
        Some(set) => Ok(set),
        None => Err(DealsError::OutOfMemory),
    }
}

/// Goes over all games of a text.
fn read_games(alloc: Global, text: &[u8], boards: u8) -> Result<State<'_>, DealsError>
    ensures read { IfOk result (HasRead text.now boards) }
    ensures refused { IfErr result (λ error. IsRefused error text.now boards) }
{
    let mut state = State::new(alloc, boards);
    match take_all(&mut state, text) {
        Ok(()) => Ok(state),
        Err(error) => Err(error),
    }
}

/// Goes over all pieces of a text, at whose start the state is.
fn take_all<'t>(state: &mut State<'t>, text: &'t [u8]) -> Result<(), DealsError>
    requires { IsStateAfter state.old (record { done = []; before = no_values; game = [] }) }
    ensures read { OnOk result (HasRead text.now state.old.boards state.new) }
    ensures refused { IfErr result (λ error. IsRefused error text.now state.old.boards) }
{
    let mut pieces = Pieces::new(without_mark(text));
    let mut offset = text.len() - pieces.left();
    while let Some(found) = pieces.next_piece() {
        match state.take(found, offset) {
            Ok(()) => {}
            Err(error) => return Err(error),
        }
        offset = text.len() - pieces.left();
    }
    state.end_game()
}

/// The text without the bytes that may stand before it to say that it is UTF-8.
fn without_mark(text: &[u8]) -> &[u8]
    ensures { result.now ≡ tags.without_mark text.now }
{
    match text {
        [0xEF, 0xBB, 0xBF, rest @ ..] => rest,
        _ => text,
    }
}

/// The least board that isn't known.
fn unknown_board(known: &KnownBoards, boards: u8) -> Option<u8>
    ensures some { IfSome result (IsUnknown known.now boards) }
    ensures none { IfNone result (KnowsFirst known.now boards) }
{
    for index in 0..boards {
        if known.get(index + 1).is_none() {
            return Some(index + 1);
        }
    }
    None
}

/// The boards from 1, each of which is known, unless memory for them was refused.
fn board_set(alloc: Global, known: &KnownBoards, boards: u8) -> Option<BoardSet>
    requires { KnowsFirst known.now boards }
    ensures { IfSome result (HasFirst known.now boards) }
{
    let Some(read) = known.in_order() else {
        return None;
    };
    let Ok(mut row) = Vec::with_capacity(alloc, usize::from(boards)) else {
        return None;
    };
    for index in 0..boards {
        let Some(board) = read.get(&(index + 1)) else {
            return None;
        };
        row.push_reserved(*board);
    }
    Some(BoardSet::new(boards, row))
}
