ghost use Rattle.std.specs.Prelude.{◌≡◌, ◌≢◌, ℕ, Some, None, IfSome, IfNone, nat_eq};
ghost use Rattle.std.specs.Option.{ForSome};
ghost use Rattle.indexmap.specs.IndexMap.{get};
ghost use Rattle.pbn_records.specs.InOrder.{HasOneMoreBoard, in_place};

use crate::board::Board;
use indexmap::IndexMap;
use std::alloc::Global;

/// The boards of the games so far: each at its number, for which no memory is taken, and all in the order of reading,
/// unless memory for that was refused.
#[derive(Drop)]
pub(crate) struct KnownBoards {
    places: [Option<Board>; 256],
    in_order: Option<IndexMap<u8, Board>>,
    ghost same: { ForSome in_order (λ boards. (number : ℕ) → get nat_eq boards number ≡ in_place places number) },
}

impl KnownBoards {
    /// No board yet.
    pub(crate) fn new(alloc: Global) -> KnownBoards
        ensures { (number : ℕ) → in_place result.places number ≡ None }
    {
        KnownBoards {
            places: [None; 256],
            in_order: Some(IndexMap::new(alloc)),
        }
    }

    /// What is known of a board.
    pub(crate) fn get(&self, number: u8) -> Option<Board>
        ensures { result ≡ in_place self.now.places number }
    {
        self.places[usize::from(number)]
    }

    /// Adds a board.
    pub(crate) fn add(&mut self, number: u8, board: Board)
        ensures added { in_place self.new.places number ≡ Some board }
        ensures others { (other : ℕ) → other ≢ number → in_place self.new.places other ≡ in_place self.old.places other }
    {
        let in_order = one_more(self.in_order.take(), number, &board);
        self.places[usize::from(number)] = Some(board);
        self.in_order = in_order;
    }

    /// The boards in the order of reading, unless memory for them was refused.
    pub(crate) fn in_order(&self) -> Option<&IndexMap<u8, Board>>
        ensures { IfSome result (λ boards. (number : ℕ) →
            get nat_eq boards.now number ≡ in_place self.now.places number) }
    {
        match &self.in_order {
            Some(boards) => Some(boards),
            None => None,
        }
    }
}

/// The boards with one more, unless memory for it is refused.
fn one_more(
    boards: Option<IndexMap<u8, Board>>,
    number: u8,
    board: &Board,
) -> Option<IndexMap<u8, Board>>
    ensures more { IfSome result (λ more. ForSome boards (λ before. HasOneMoreBoard before number board.now more)) }
    ensures none { IfNone boards (result ≡ None) }
{
    let mut boards = boards?;
    match boards.insert(number, *board) {
        Ok(_) => Some(boards),
        Err(_) => None,
    }
}
