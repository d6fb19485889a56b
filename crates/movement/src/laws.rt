//! What holds of every movement and of every list that can be played: in which range cells are, and that no two rows
//! agree where they are kept apart. And which lists can be played.

ghost use Rattle.std.specs.Prelude.{◌≡◌, ◌≢◌, ℕ, Contains, List};
ghost use Rattle.table_terms.specs.declared.pair.Pair.{Pair};
ghost use Rattle.mitchell.specs.Mitchell.{MitchellSection, IsMitchell};
ghost use Rattle.movement.specs.Mitchell.{rows_of_mitchell, mitchell_limits};
ghost use Rattle.movement.specs.Movement.{Section, IsSection, HasCell, IsCell, rows};
ghost use Rattle.movement.specs.declared.row.Row.{Row};
ghost use Rattle.movement.specs.Row.{Plays, Seats, IsCellInRange};
ghost use Rattle.movement.specs.Sound.{IsSound};
ghost use Rattle.movement.specs.Switched.{switched};
ghost use Rattle.movement.specs.declared.cell.Cell.{Cell};
ghost use Rattle.movement.specs.declared.limits.Limits.{Limits};

/// Each cell has a table and a board of its section.
pub fn cells_in_range()
    ensures { (section : Section) (cell : Cell) → IsSection section → IsCell section cell → IsCellInRange section cell }
{}

/// A cell is played in one round, by one pair on each side.
pub fn one_round_a_cell()
    ensures { (section : Section) (first second : Row) (cell : Cell) → IsSection section →
        Contains (rows section) first → Contains (rows section) second →
        HasCell section first cell → HasCell section second cell → first ≡ second }
{}

/// A pair plays a board once, at one table.
pub fn one_cell_a_board()
    ensures { (section : Section) (first second : Row) (pair : Pair) (board : ℕ) → IsSection section →
        Contains (rows section) first → Contains (rows section) second →
        Plays section first pair board → Plays section second pair board → first ≡ second }
{}

/// In a round of a list that can be played a table has one row, and a pair has one.
pub fn one_row_a_round()
    ensures table { (limits : Limits) (list : List Row) (first second : Row) → IsSound limits list →
        Contains list first → Contains list second →
        first.table ≡ second.table → first.round ≡ second.round → first ≡ second }
    ensures pair { (limits : Limits) (list : List Row) (first second : Row) (pair : Pair) → IsSound limits list →
        Contains list first → Contains list second →
        Seats first pair → Seats second pair → first.round ≡ second.round → first ≡ second }
{}

/// A table plays a set in one row: so a table and a board are one result of two pairs.
pub fn one_row_a_cell()
    ensures { (limits : Limits) (list : List Row) (first second : Row) → IsSound limits list →
        Contains list first → Contains list second →
        first.table ≡ second.table → first.set ≡ second.set → first ≡ second }
{}

/// No pair meets a set or another pair twice.
pub fn nobody_meets_again()
    ensures set { (limits : Limits) (list : List Row) (first second : Row) (pair : Pair) → IsSound limits list →
        Contains list first → Contains list second →
        Seats first pair → Seats second pair → first.set ≡ second.set → first ≡ second }
    ensures opponent { (limits : Limits) (list : List Row) (first second : Row) (pair other : Pair) →
        IsSound limits list → Contains list first → Contains list second → pair ≢ other →
        Seats first pair → Seats first other → Seats second pair → Seats second other → first ≡ second }
{}

/// The plain Mitchell is a list that can be played, with or without an absent pair; no set is shared.
pub fn mitchell_is_sound()
    ensures { (section : MitchellSection) → IsMitchell section →
        IsSound (mitchell_limits section) (rows_of_mitchell section) }
{}

/// A list that can be played can be played with an arrow switch: the two pairs of each table the other way round after
/// so many rounds.
pub fn an_arrow_switch_is_sound()
    ensures { (limits : Limits) (rounds : ℕ) (list : List Row) → IsSound limits list →
        IsSound limits (switched rounds list) }
{}
