ghost use Rattle.std.specs.Prelude.{◌≡◌, ◌++◌, ◌∷◌, [], ℕ, List, Some, None, OnOk, IfErr};
ghost use Rattle.pbn_records.specs.declared.fault.Fault.{Fault};
ghost use Rattle.pbn_records.specs.Values.{Values};
ghost use Rattle.pbn_records.specs.Faults.{IsFaultOf};
ghost use Rattle.pbn_records.specs.Shown.{values_read};
ghost use Rattle.pbn_records.specs.Kept.{board_at, Knows, IsGameFault};

use crate::board::Board;
use crate::deals_error::DealsError;
use crate::game::UsedTags;
use crate::known_boards::KnownBoards;
use crate::reader::{board_in, first_fault, game_board};

/// Adds the board of a game, unless the game is ignored or the board has an earlier game.
pub(crate) fn add_game(
    known: &mut KnownBoards,
    values: &UsedTags<'_>,
    boards: u8,
) -> Result<(), DealsError>
    ensures known { OnOk result ((games : List Values) → Knows boards games known.old →
        Knows boards (games ++ values_read values.now ∷ []) known.new) }
    ensures faultless { OnOk result ((games : List Values) → Knows boards games known.old →
        (fault : Fault) (offset : ℕ) → ¬ IsFaultOf boards games (values_read values.now) fault offset) }
    ensures fault { IfErr result (λ error. (games : List Values) → Knows boards games known.old →
        IsGameFault boards games (values_read values.now) error) }
{
    let board = game_board(values, boards);
    let earlier = known_board(known, board);
    if let Some(fault) = first_fault(values, board, &earlier) {
        return Err(fault.error());
    }
    let Some(number) = board else {
        return Ok(());
    };
    if earlier.is_some() {
        return Ok(());
    }
    let Some(read) = board_in(values, number) else {
        return Ok(());
    };
    known.add(number, read);
    Ok(())
}

/// What is known of a board, if it is one's number.
fn known_board(known: &KnownBoards, board: Option<u8>) -> Option<Board>
    ensures some { (number : ℕ) → board ≡ Some number → result ≡ board_at known.now number }
    ensures none { board ≡ None → result ≡ None }
{
    let Some(number) = board else {
        return None;
    };
    known.get(number)
}
