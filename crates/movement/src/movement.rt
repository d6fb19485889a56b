ghost use Rattle.std.specs.Prelude.{◌≡◌, ◌↔◌, ℕ, ◌+◌, ◌-◌, ◌/◌, ◌%◌, ◌<◌, ◌≤◌, All, Any, Contains, IfOk, IfErr, IfSome, IfNone, IsTrue, None, Some, length, true, filter};
ghost use Rattle.small_sets.specs.First.{IsFirst};
ghost use Rattle.small_sets.specs.Numbers.{has_number};
ghost use Rattle.mitchell.specs.declared.movement_error.MovementError.{MovementError};
ghost use Rattle.movement.specs.Kept.{places, place_of, kept_rows};
ghost use Rattle.movement.specs.Listed.{are_there, listed_section};
ghost use Rattle.movement.specs.Mitchell.{mitchell_section};
ghost use Rattle.movement.specs.Movement.{Section, IsSection, IsOfSet, HasCell, IsCell, is_pair_of, boards_of, most_tables, rows};
ghost use Rattle.movement.specs.declared.row.Row.{Row};
ghost use Rattle.movement.specs.Refusal.{Refuses, RefusesList, list_error_number, number_of};
ghost use Rattle.movement.specs.Row.{Seats, Plays, IsCellInRange, IsPlayedBy};
ghost use Rattle.movement.specs.declared.list_error.ListError.{ListError};

use crate::cell::Cell;
use crate::limits::Limits;
use crate::list_error::ListError;
use crate::pairs::{pairs_of_mitchell, pairs_of_rows};
use crate::refusal::refusal;
use crate::row::Row;
use crate::sitting::Sitting;
use crate::sittings::{PLACES, is_one_of, mitchell_sittings, rows_of, sittings_of};
use mitchell::{Mitchell, MovementError};
use small_sets::NumberSet;
use std::alloc::{AllocError, Global};
use std::marker::Model;
use table_terms::{Pair, Side};

/// Who plays what, where and when in one section. Clauses see the list of its rows; what is kept is who plays each set
/// at each table.
#[derive(Drop)]
pub struct Movement {
    tables: u8,
    rounds: u8,
    sets: u8,
    per_set: u8,
    absent: Option<Pair>,
    north_south: NumberSet<{ Movement::MOST_TABLES }>,
    east_west: NumberSet<{ Movement::MOST_TABLES }>,
    is_named: bool,
    sittings: [Option<Sitting>; PLACES],
}

impl Model for Movement {
    ghost use Rattle.std.specs.Prelude.{◌≡◌, length};
    ghost use Rattle.movement.specs.Kept.{places, kept_rows};
    ghost use Rattle.movement.specs.Movement.{Section, IsSection};

    ghost Value = { Section };

    ghost view = { λ m. record {
      tables = m.tables;
      rounds = m.rounds;
      sets = m.sets;
      per_set = m.per_set;
      absent = m.absent;
      north_south = m.north_south;
      east_west = m.east_west;
      is_named = m.is_named;
      rows = kept_rows m.sittings;
    } };

    ghost invariant = { λ m. (length m.sittings ≡ places) × IsSection (record {
      tables = m.tables;
      rounds = m.rounds;
      sets = m.sets;
      per_set = m.per_set;
      absent = m.absent;
      north_south = m.north_south;
      east_west = m.east_west;
      is_named = m.is_named;
      rows = kept_rows m.sittings;
    }) };
}

impl Movement {
    /// How many tables a section has at least.
    pub const LEAST_TABLES: u8 = Mitchell::LEAST_TABLES;

    /// How many tables a section has at most.
    pub const MOST_TABLES: u8 = Mitchell::MOST_TABLES;

    /// How many sets a section has at most.
    pub const MOST_SETS: u8 = 31;

    /// How many boards a set has at most.
    pub const MOST_PER_SET: u8 = Mitchell::MOST_PER_SET;

    /// How many boards a section plays at most.
    pub const MOST_BOARDS: u8 = Mitchell::MOST_BOARDS;

    /// The plain Mitchell of 3 to 16 tables, with `per_set` boards in a set, in which every pair is there.
    pub fn new(tables: u8, rounds: u8, per_set: u8) -> Result<Movement, MovementError>
        ensures section { IfOk result (λ movement. movement ≡
            mitchell_section (record { tables = tables; rounds = rounds; per_set = per_set; absent = None })) }
        ensures allowed { IfOk result (λ _. (error : MovementError) →
            ¬ Refuses error (record { tables = tables; rounds = rounds; per_set = per_set; absent = None })) }
        ensures refused { IfErr result (IsFirst number_of (λ error.
            Refuses error (record { tables = tables; rounds = rounds; per_set = per_set; absent = None }))) }
    {
        Movement::with_absent(tables, rounds, per_set, None)
    }

    /// The same in which a pair may be absent.
    pub fn with_absent(
        tables: u8,
        rounds: u8,
        per_set: u8,
        absent: Option<Pair>,
    ) -> Result<Movement, MovementError>
        ensures section { IfOk result (λ movement. movement ≡
            mitchell_section (record { tables = tables; rounds = rounds; per_set = per_set; absent = absent })) }
        ensures allowed { IfOk result (λ _. (error : MovementError) →
            ¬ Refuses error (record { tables = tables; rounds = rounds; per_set = per_set; absent = absent })) }
        ensures refused { IfErr result (IsFirst number_of (λ error.
            Refuses error (record { tables = tables; rounds = rounds; per_set = per_set; absent = absent }))) }
    {
        match Mitchell::new(tables, rounds, per_set, absent) {
            Ok(section) => Ok(Movement::of_mitchell(section)),
            Err(error) => Err(error),
        }
    }

    /// The movement of a list of rows, with `per_set` boards in a set, in which a pair may be absent: its rows aren't
    /// played.
    pub fn listed(
        limits: Limits,
        per_set: u8,
        absent: Option<Pair>,
        rows: &[Row],
    ) -> Result<Movement, ListError>
        ensures section { IfOk result (λ movement. movement ≡ listed_section limits per_set absent rows.now) }
        ensures rows { IfOk result (λ movement. (row : Row) →
            Contains movement.rows row ↔ Contains (filter (are_there absent) rows.now) row) }
        ensures allowed { IfOk result (λ _. (error : ListError) → ¬ RefusesList limits per_set absent rows.now error) }
        ensures refused { IfErr result (IsFirst list_error_number (RefusesList limits per_set absent rows.now)) }
    {
        if let Some(error) = refusal(limits, per_set, absent, rows) {
            return Err(error);
        }
        Ok(Movement {
            tables: limits.tables,
            rounds: limits.rounds,
            sets: limits.sets,
            per_set,
            absent,
            north_south: pairs_of_rows(absent, rows, Side::NorthSouth),
            east_west: pairs_of_rows(absent, rows, Side::EastWest),
            is_named: true,
            sittings: sittings_of(limits, absent, rows),
        })
    }

    // The list of a section's plain Mitchell.
    fn of_mitchell(section: Mitchell) -> Movement
        ensures { result ≡ mitchell_section section }
    {
        Movement {
            tables: section.tables(),
            rounds: section.rounds(),
            sets: section.tables(),
            per_set: section.per_set(),
            absent: section.absent(),
            north_south: pairs_of_mitchell(section, Side::NorthSouth),
            east_west: pairs_of_mitchell(section, Side::EastWest),
            is_named: false,
            sittings: mitchell_sittings(section),
        }
    }

    /// The same movement.
    pub fn copy(&self) -> Movement
        ensures { result ≡ self.now }
    {
        Movement {
            tables: self.tables,
            rounds: self.rounds,
            sets: self.sets,
            per_set: self.per_set,
            absent: self.absent,
            north_south: self.north_south,
            east_west: self.east_west,
            is_named: self.is_named,
            sittings: self.sittings,
        }
    }

    /// How many tables the section has.
    pub fn tables(&self) -> u8
        ensures tables { result ≡ self.now.tables }
        ensures section { IsSection self.now }
    {
        self.tables
    }

    /// How many rounds are played.
    pub fn rounds(&self) -> u8
        ensures rounds { result ≡ self.now.rounds }
        ensures section { IsSection self.now }
    {
        self.rounds
    }

    /// How many sets of boards are played.
    pub fn sets(&self) -> u8
        ensures sets { result ≡ self.now.sets }
        ensures section { IsSection self.now }
    {
        self.sets
    }

    /// How many boards a set has.
    pub fn per_set(&self) -> u8
        ensures per_set { result ≡ self.now.per_set }
        ensures section { IsSection self.now }
    {
        self.per_set
    }

    /// How many boards the section plays.
    pub fn boards(&self) -> u8
        ensures boards { result ≡ boards_of self.now }
        ensures section { IsSection self.now }
    {
        self.sets * self.per_set
    }

    /// The pair that isn't there, if one isn't.
    pub fn absent(&self) -> Option<Pair>
        ensures absent { result ≡ self.now.absent }
        ensures section { IsSection self.now }
    {
        self.absent
    }

    /// Whether the movement was named, and isn't the plain Mitchell of numbers alone.
    pub fn is_named(&self) -> bool
        ensures is_named { result ≡ self.now.is_named }
        ensures section { IsSection self.now }
    {
        self.is_named
    }

    /// Whether the section has a pair.
    pub fn has_pair(&self, pair: Pair) -> bool
        ensures { result ≡ is_pair_of self.now pair }
    {
        1 <= pair.number
            && match pair.side {
                Side::NorthSouth => self.north_south.contains(pair.number),
                Side::EastWest => self.east_west.contains(pair.number),
            }
    }

    /// The cell of a table and a board, if the table is scheduled to play the board.
    pub fn cell(&self, table: u8, board: u8) -> Option<Cell>
        ensures cell { IfSome result (λ cell. cell ≡ record { table = table; board = board }) }
        ensures some { IfSome result (IsCell self.now) }
        ensures range { IfSome result (IsCellInRange self.now) }
        ensures none { IfNone result (¬ IsCell self.now (record { table = table; board = board })) }
        ensures section { IsSection self.now }
    {
        match self.sitting(table, board) {
            Some(_) => Some(Cell { table, board }),
            None => None,
        }
    }

    /// The round in which a cell is played.
    pub fn round_of(&self, cell: Cell) -> u8
        requires { IsCell self.now cell }
        ensures row { Any (λ row. HasCell self.now row cell × (row.round ≡ result)) (rows self.now) }
        ensures round { (1 ≤ result) × (result ≤ self.now.rounds) }
        ensures range { IsCellInRange self.now cell }
        ensures section { IsSection self.now }
    {
        self.played(cell).round
    }

    /// The pair that sits North-South where a cell is played.
    pub fn north_south_at(&self, cell: Cell) -> Pair
        requires { IsCell self.now cell }
        ensures row { Any (λ row. HasCell self.now row cell × (row.north_south ≡ result)) (rows self.now) }
        ensures section { IsSection self.now }
    {
        self.played(cell).north_south
    }

    /// The pair that sits East-West there.
    pub fn east_west_at(&self, cell: Cell) -> Pair
        requires { IsCell self.now cell }
        ensures row { Any (λ row. HasCell self.now row cell × (row.east_west ≡ result)) (rows self.now) }
        ensures section { IsSection self.now }
    {
        self.played(cell).east_west
    }

    /// The cell in which a pair plays a board, if the schedule has one.
    pub fn cell_of(&self, pair: Pair, board: u8) -> Option<Cell>
        ensures seat { IfSome result (λ cell. Any (λ row. Seats row pair × HasCell self.now row cell) (rows self.now)) }
        ensures board { IfSome result (λ cell. cell.board ≡ board) }
        ensures cell { IfSome result (IsCell self.now) }
        ensures range { IfSome result (IsCellInRange self.now) }
        ensures none { IfNone result (All (λ row. ¬ Plays self.now row pair board) (rows self.now)) }
        ensures section { IsSection self.now }
    {
        for below in 0..self.tables {
            let cell = Cell {
                table: below + 1,
                board,
            };
            if self.seats(pair, cell) {
                return Some(cell);
            }
        }
        None
    }

    /// The tables that are scheduled to play a board.
    pub fn scheduled(&self, board: u8) -> NumberSet<{ Movement::MOST_TABLES }>
        ensures { (table : ℕ) →
            ((has_number result table ≡ true) ↔ IsCell self.now (record { table = table; board = board })) }
    {
        let tables = self.tables;
        let mut scheduled = NumberSet::new();
        for table in 0..tables {
            if self.cell(table + 1, board).is_some() {
                scheduled.insert(table + 1);
            }
        }
        scheduled
    }

    /// The rows, by set and then by table.
    pub fn rows(&self, alloc: Global) -> Result<Vec<Row>, AllocError>
        ensures { IfOk result (λ listed. listed.items ≡ rows self.now) }
    {
        rows_of(alloc, &self.sittings)
    }

    // Whether a pair plays a board at a table.
    fn seats(&self, pair: Pair, cell: Cell) -> bool
        ensures { IsTrue result ↔ Any (λ row. Seats row pair × HasCell self.now row cell) (rows self.now) }
    {
        match self.sitting(cell.table, cell.board) {
            Some(sitting) => is_one_of(pair, &sitting),
            None => false,
        }
    }

    // Who plays a cell, and when.
    fn played(&self, cell: Cell) -> Sitting
        requires { IsCell self.now cell }
        ensures row { Any (IsPlayedBy self.now cell result) (rows self.now) }
        ensures section { IsSection self.now }
    {
        match self.sitting(cell.table, cell.board) {
            Some(sitting) => sitting,
            None => unreachable!(),
        }
    }

    // Who plays a board at a table, and when, if the table is scheduled to play it.
    fn sitting(&self, table: u8, board: u8) -> Option<Sitting>
        ensures some { IfSome result (λ sitting.
            Any (IsPlayedBy self.now (record { table = table; board = board }) sitting) (rows self.now)) }
        ensures none { IfNone result (¬ IsCell self.now (record { table = table; board = board })) }
        ensures section { IsSection self.now }
    {
        let boards = self.boards();
        if table < 1 || table > Movement::MOST_TABLES || board < 1 || board > boards {
            return None;
        }
        self.sittings[self.place(table, board)]
    }

    // The place of a board's set at a table.
    fn place(&self, table: u8, board: u8) -> usize
        requires from_table { 1 ≤ table }
        requires to_table { table ≤ most_tables }
        requires from_board { 1 ≤ board }
        requires to_board { board ≤ boards_of self.now }
        ensures below { result < places }
        ensures place { (set : ℕ) → IsOfSet self.now set board → 1 ≤ set → result ≡ place_of set table }
        ensures table { result % 16 + 1 ≡ table }
        ensures set { IsOfSet self.now (result / 16 + 1) board }
    {
        let set = self.set_of(board);
        usize::from(set) * usize::from(Movement::MOST_TABLES) + usize::from(table) - 1
    }

    // The set of a board, counted from 0.
    fn set_of(&self, board: u8) -> u8
        requires from_board { 1 ≤ board }
        requires to_board { board ≤ boards_of self.now }
        ensures set { result < self.now.sets }
        ensures board { IsOfSet self.now (result + 1) board }
        ensures section { IsSection self.now }
    {
        (board - 1) / self.per_set
    }
}
