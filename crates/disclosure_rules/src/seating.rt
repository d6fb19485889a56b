ghost use Rattle.std.specs.Prelude.{◌≡◌, IfSome, IfNone};
ghost use Rattle.movement.specs.Movement.{IsSection};
ghost use Rattle.disclosure_rules.specs.Seating.{plays_board, has_still_to_play, is_seated_at, PlaysBoard, IsSeatedAt};

use crate::public::Public;
use crate::viewer::Viewer;
use movement::Cell;

/// Whether the user sits in a pair that plays the board.
pub fn plays_board(public: &Public, viewer: &Viewer, board: u8) -> bool
    ensures { result ≡ plays_board public.now viewer.now board }
{
    own_cell(public, viewer, board).is_some()
}

/// Whether the user sits in a pair that plays the board, and has no result on it yet (Law 16D).
pub fn has_still_to_play(public: &Public, viewer: &Viewer, board: u8) -> bool
    ensures { result ≡ has_still_to_play public.now viewer.now board }
{
    match own_cell(public, viewer, board) {
        Some(cell) => !public.live.contains(cell),
        None => false,
    }
}

/// Whether the user sits in one of the two pairs that play the board at the table.
pub fn is_seated_at(public: &Public, viewer: &Viewer, cell: Cell) -> bool
    ensures { result ≡ is_seated_at public.now viewer.now cell }
{
    match own_cell(public, viewer, cell.board) {
        Some(own) => own.table == cell.table,
        None => false,
    }
}

/// The table where the user plays the board, if the user sits in a pair that plays it.
fn own_cell(public: &Public, viewer: &Viewer, board: u8) -> Option<Cell>
    ensures seated { IfSome result (IsSeatedAt public.now viewer.now) }
    ensures board { IfSome result (λ cell. cell.board ≡ board) }
    ensures none { IfNone result (¬ PlaysBoard public.now viewer.now board) }
    ensures section { IfSome result (λ _. IsSection public.now.movement) }
{
    let seat = viewer.seat?;
    public.movement.cell_of(seat.pair, board)
}
