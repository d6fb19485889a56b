ghost use Rattle.std.specs.Prelude.{◌≡◌, ◌*◌, ◌-◌, ◌/◌, ◌%◌, ◌<◌, ◌≤◌, true, false, take, IfOk, IfErr};
ghost use Rattle.small_sets.specs.First.{IsFirst};
ghost use Rattle.movement.specs.Refusal.{list_error_number};
ghost use Rattle.movement.specs.Switched.{switched_after, turned};
ghost use Rattle.movement.specs.declared.list_error.ListError.{ListError};
ghost use Rattle.named_movements.specs.Words.{can_have_tables, can_have_rounds, sets_of_word, sharing_of_word, row_of_word};
ghost use Rattle.named_movements.specs.Named.{limits_of_word, named_rows, named_section, is_plain, RefusesNamed};

use crate::movement_word::MovementWord;
use crate::rows::row_of_word;
use movement::{Limits, ListError, Movement, MovementError, Row};
use table_terms::Pair;

/// How many rows a movement of these has at most.
const MOST_ROWS: usize = 256;

/// A movement that a word names, with its tables, its rounds and the boards in a set.
#[derive(Clone, Copy)]
pub struct NamedMovement {
    pub word: MovementWord,
    pub tables: u8,
    pub rounds: u8,
    pub per_set: u8,
    /// In how many of the last rounds the two pairs of each table sit the other way round.
    pub switched: u8,
    pub absent: Option<Pair>,
}

impl NamedMovement {
    /// The movement, or the first cause why there is none.
    pub fn movement(self) -> Result<Movement, ListError>
        ensures section { IfOk result (λ movement. movement ≡ named_section self) }
        ensures allowed { IfOk result (λ _. (error : ListError) → ¬ RefusesNamed self error) }
        ensures refused { IfErr result (IsFirst list_error_number (RefusesNamed self)) }
    {
        if !self.word.can_have_tables(self.tables) {
            return Err(ListError::BadTables);
        }
        if !self.word.can_have_rounds(self.tables, self.rounds) {
            return Err(ListError::BadRounds);
        }
        if self.is_plain() {
            plain_mitchell(self)
        } else {
            listed(self)
        }
    }

    // Whether it is a Mitchell in which nobody changes sides.
    fn is_plain(self) -> bool
        ensures { result ≡ is_plain self }
    {
        match self.word {
            MovementWord::Mitchell => self.switched == 0,
            MovementWord::Howell | MovementWord::ShareAndRelay | MovementWord::Web => false,
        }
    }
}

/// The plain Mitchell.
fn plain_mitchell(named: NamedMovement) -> Result<Movement, ListError>
    requires plain { is_plain named ≡ true }
    requires tables { can_have_tables named.word named.tables ≡ true }
    requires rounds { can_have_rounds named.word named.tables named.rounds ≡ true }
    ensures section { IfOk result (λ movement. movement ≡ named_section named) }
    ensures allowed { IfOk result (λ _. (error : ListError) → ¬ RefusesNamed named error) }
    ensures refused { IfErr result (IsFirst list_error_number (RefusesNamed named)) }
{
    match Movement::with_absent(named.tables, named.rounds, named.per_set, named.absent) {
        Ok(movement) => Ok(movement),
        Err(MovementError::BadTables) => Err(ListError::BadTables),
        Err(MovementError::BadRounds) => Err(ListError::BadRounds),
        Err(MovementError::BadSets) => Err(ListError::BadSets),
        Err(MovementError::BadPair) => Err(ListError::BadPair),
    }
}

/// The movement of the rows.
fn listed(named: NamedMovement) -> Result<Movement, ListError>
    requires plain { is_plain named ≡ false }
    requires tables { can_have_tables named.word named.tables ≡ true }
    requires rounds { can_have_rounds named.word named.tables named.rounds ≡ true }
    ensures section { IfOk result (λ movement. movement ≡ named_section named) }
    ensures allowed { IfOk result (λ _. (error : ListError) → ¬ RefusesNamed named error) }
    ensures refused { IfErr result (IsFirst list_error_number (RefusesNamed named)) }
{
    let mut rows = [row_at(named, 0); MOST_ROWS];
    let many = put_rows(&mut rows, named);
    Movement::listed(
        limits_of_word(named),
        named.per_set,
        named.absent,
        &rows[..many],
    )
}

/// Puts the rows of a movement one after another, and tells how many they are.
fn put_rows(rows: &mut [Row; MOST_ROWS], named: NamedMovement) -> usize
    requires tables { can_have_tables named.word named.tables ≡ true }
    requires rounds { can_have_rounds named.word named.tables named.rounds ≡ true }
    ensures many { result ≤ 256 }
    ensures rows { take result rows.new ≡ named_rows named }
{
    let many = usize::from(named.rounds) * usize::from(named.tables);
    for place in 0..many {
        rows[place] = row_at(named, place);
    }
    many
}

/// The row at a place among the rows of a movement: they stand by round.
fn row_at(named: NamedMovement, place: usize) -> Row
    requires tables { can_have_tables named.word named.tables ≡ true }
    requires rounds { can_have_rounds named.word named.tables named.rounds ≡ true }
    requires place { place < named.rounds * named.tables }
    ensures { result ≡ switched_after (named.rounds - named.switched)
        (row_of_word named.word named.tables named.rounds (place / named.tables) (place % named.tables)) }
{
    let round = place / usize::from(named.tables);
    let k = place % usize::from(named.tables);
    let row = row_of_word(named.word, named.tables, named.rounds, round as u8, k as u8);
    if row.round > named.rounds.saturating_sub(named.switched) {
        turned(row)
    } else {
        row
    }
}

/// The row with its two pairs the other way round.
fn turned(row: Row) -> Row
    ensures { result ≡ turned row }
{
    Row {
        north_south: row.east_west,
        east_west: row.north_south,
        ..row
    }
}

/// In which limits the rows of a movement stay.
fn limits_of_word(named: NamedMovement) -> Limits
    requires tables { can_have_tables named.word named.tables ≡ true }
    requires rounds { can_have_rounds named.word named.tables named.rounds ≡ true }
    ensures { result ≡ limits_of_word named }
{
    Limits {
        rounds: named.rounds,
        tables: named.tables,
        sets: named.word.sets(named.tables, named.rounds),
        shared_by: named.word.shared_by(named.tables, named.rounds),
    }
}
