//! The movement that a session object asks for, made.

ghost use Rattle.std.specs.Prelude.{◌≡◌, IfOk, IfErr};
ghost use Rattle.small_sets.specs.First.{IsFirst};
ghost use Rattle.movement.specs.declared.row.Row.{Row};
ghost use Rattle.movement.specs.Listed.{listed_section};
ghost use Rattle.movement.specs.Mitchell.{mitchell_section};
ghost use Rattle.named_movements.specs.Named.{named_section};
ghost use Rattle.session_object.specs.declared.session_fault.SessionFault.{SessionFault};
ghost use Rattle.session_object.specs.Reading.{mitchell_asked, with_word, greatest_set, limits_of_list, section_of, fault_of_list, fault_place, session_of_parts};
ghost use Rattle.session_object.specs.Reading.{RefusesNumbers, RefusesWord, RefusesRows, RefusesMovement, HasNoMovementFault, IsAboutRow};

use crate::asked_movement::AskedMovement;
use crate::parts::Parts;
use crate::session_fault::SessionFault;
use movement::{Limits, ListError, Movement, MovementError, Row};
use named_movements::{MovementWord, NamedMovement};

/// The movement that the parts of a session object ask for.
pub(crate) fn movement_of(parts: &Parts) -> Result<Movement, SessionFault>
    ensures section { IfOk result (λ movement. movement ≡ section_of (session_of_parts parts.now)) }
    ensures allowed { IfOk result (λ _. HasNoMovementFault (session_of_parts parts.now)) }
    ensures refused { IfErr result (IsFirst fault_place (RefusesMovement (session_of_parts parts.now))) }
{
    match &parts.movement {
        AskedMovement::Nothing => mitchell_of(parts),
        AskedMovement::Word(word) => named_by(parts, *word),
        AskedMovement::Rows(rows) => listed_by(parts, rows.as_slice()),
    }
}

fn mitchell_of(parts: &Parts) -> Result<Movement, SessionFault>
    ensures section { IfOk result (λ movement. movement ≡ mitchell_section (mitchell_asked (session_of_parts parts.now))) }
    ensures allowed { IfOk result (λ _. (fault : SessionFault) → ¬ RefusesNumbers (session_of_parts parts.now) fault) }
    ensures refused { IfErr result (IsFirst fault_place (RefusesNumbers (session_of_parts parts.now))) }
{
    match Movement::with_absent(parts.tables, parts.rounds, parts.per_set, parts.absent) {
        Ok(movement) => Ok(movement),
        Err(error) => Err(SessionFault::Movement(error)),
    }
}

fn named_by(parts: &Parts, word: MovementWord) -> Result<Movement, SessionFault>
    ensures section { IfOk result (λ movement. movement ≡ named_section (with_word (session_of_parts parts.now) word)) }
    ensures allowed { IfOk result (λ _. (fault : SessionFault) → ¬ RefusesWord (session_of_parts parts.now) word fault) }
    ensures refused { IfErr result (IsFirst fault_place (RefusesWord (session_of_parts parts.now) word)) }
{
    let named = NamedMovement {
        word,
        tables: parts.tables,
        rounds: parts.rounds,
        per_set: parts.per_set,
        switched: parts.switched.unwrap_or(0),
        absent: parts.absent,
    };
    match named.movement() {
        Ok(movement) => Ok(movement),
        Err(error) => Err(fault_of_list(&[], error)),
    }
}

fn listed_by(parts: &Parts, rows: &[Row]) -> Result<Movement, SessionFault>
    ensures section { IfOk result (λ movement. movement ≡ listed_section
        (limits_of_list (session_of_parts parts.now) rows.now) parts.now.per_set parts.now.absent rows.now) }
    ensures allowed { IfOk result (λ _. (fault : SessionFault) → ¬ RefusesRows (session_of_parts parts.now) rows.now fault) }
    ensures refused { IfErr result (IsFirst fault_place (RefusesRows (session_of_parts parts.now) rows.now)) }
{
    let limits = Limits {
        rounds: parts.rounds,
        tables: parts.tables,
        sets: greatest_set(rows),
        shared_by: parts.shared_by.unwrap_or(1),
    };
    match Movement::listed(limits, parts.per_set, parts.absent, rows) {
        Ok(movement) => Ok(movement),
        Err(error) => Err(fault_of_list(rows, error)),
    }
}

/// The greatest set that a row names.
fn greatest_set(rows: &[Row]) -> u8
    ensures { result ≡ greatest_set rows.now }
{
    rows.iter()
        .fold(0, |greatest: u8, row: &Row| greatest.max(row.set))
}

fn fault_of_list(rows: &[Row], error: ListError) -> SessionFault
    requires { IsAboutRow error rows.now }
    ensures { result ≡ fault_of_list error }
{
    match error {
        ListError::BadTables => SessionFault::Movement(MovementError::BadTables),
        ListError::BadRounds => SessionFault::Movement(MovementError::BadRounds),
        ListError::BadSets => SessionFault::Movement(MovementError::BadSets),
        ListError::BadRow(misplaced) => SessionFault::Row(misplaced.fault, misplaced.place + 1),
        ListError::BadPair => SessionFault::Movement(MovementError::BadPair),
    }
}
