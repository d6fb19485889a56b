ghost use Rattle.std.specs.Prelude.{◌≡◌, ◌≤◌, [], replicate};
ghost use Rattle.movement.specs.Movement.{most_tables, most_boards};
ghost use Rattle.disclosure_rules.specs.LiveCells.{tables_at, is_live, with_live, without_live};

use movement::{Cell, Movement};
use small_sets::NumberSet;
use std::marker::Model;

/// Where there is a result: clauses see, for each board, the list of the tables, ascending.
#[derive(Drop)]
pub struct LiveCells {
    tables: [NumberSet<{ Movement::MOST_TABLES }>; Movement::MOST_BOARDS as usize],
}

impl Model for LiveCells {
    ghost use Rattle.std.specs.Prelude.{◌≡◌, ℕ, List, length};
    ghost use Rattle.movement.specs.Movement.{most_boards};

    ghost Value = { List (List ℕ) };

    ghost view = { λ live. live.tables };

    ghost invariant = { λ live. length live.tables ≡ most_boards };
}

impl LiveCells {
    /// No result yet.
    pub fn new() -> LiveCells
        ensures { result ≡ replicate most_boards [] }
    {
        LiveCells {
            tables: [NumberSet::new(); Movement::MOST_BOARDS as usize],
        }
    }

    pub fn copy(&self) -> LiveCells
        ensures { result ≡ self.now }
    {
        LiveCells {
            tables: self.tables,
        }
    }

    /// The tables that have a result on a board.
    pub fn tables(&self, board: u8) -> NumberSet<{ Movement::MOST_TABLES }>
        ensures { result ≡ tables_at self.now board }
    {
        let tables = &self.tables;
        if board < 1 || board > Movement::MOST_BOARDS {
            return NumberSet::new();
        }
        tables[board as usize - 1]
    }

    /// Whether the table has a result on the board.
    pub fn contains(&self, cell: Cell) -> bool
        ensures { result ≡ is_live self.now cell }
    {
        self.tables(cell.board).contains(cell.table)
    }

    /// There is a result at a table from now on.
    pub fn insert(&mut self, cell: Cell)
        requires from_table { 1 ≤ cell.table }
        requires to_table { cell.table ≤ most_tables }
        requires from_board { 1 ≤ cell.board }
        requires to_board { cell.board ≤ most_boards }
        ensures { self.new ≡ with_live self.old cell }
    {
        let place = cell.board as usize - 1;
        let mut tables = self.tables[place];
        tables.insert(cell.table);
        self.tables[place] = tables;
    }

    /// There is no result at a table any more.
    pub fn remove(&mut self, cell: Cell)
        requires from_table { 1 ≤ cell.table }
        requires to_table { cell.table ≤ most_tables }
        requires from_board { 1 ≤ cell.board }
        requires to_board { cell.board ≤ most_boards }
        ensures { self.new ≡ without_live self.old cell }
    {
        let place = cell.board as usize - 1;
        let mut tables = self.tables[place];
        tables.remove(cell.table);
        self.tables[place] = tables;
    }
}
