//! A list of people, read from its text.

ghost use Rattle.std.specs.Prelude.{◌≡◌, ◌∷◌, IfOk, map, take};
ghost use Rattle.csv.specs.Records.{fields_of};
ghost use Rattle.people_list.specs.People.{ArePeople, IsPeopleList};

use crate::header::check_columns;
use crate::people_fault::PeopleFault;
use crate::person::{Person, person_of};
use crate::rows::{line_of, rows_of};
use csv::ByteRecord;
use std::alloc::Global;

/// How many bytes a list of people has at most.
pub const MOST_LIST_BYTES: usize = 1_048_576;

/// The people of a CSV text, a line for each under the line of the columns.
pub fn read_people(alloc: Global, text: &[u8]) -> Result<Vec<Person>, PeopleFault>
    ensures { IfOk result (λ people. IsPeopleList text.now people.items) }
{
    if text.len() > MOST_LIST_BYTES {
        return Err(PeopleFault::TooLong);
    }
    let rows = rows_of(alloc, text)?;
    match rows.as_slice() {
        [] => Err(PeopleFault::NoHeader),
        [_] => Err(PeopleFault::NoPeople),
        [columns, people @ ..] => people_of(alloc, text, columns, people),
    }
}

fn people_of(
    alloc: Global,
    text: &[u8],
    columns: &ByteRecord,
    rows: &[ByteRecord],
) -> Result<Vec<Person>, PeopleFault>
    ensures { IfOk result (λ people. ArePeople (fields_of columns.now) (map fields_of rows.now) people.items) }
{
    check_columns(columns)?;
    let mut people = Vec::new(alloc);
    for row in rows {
        let person = person_of(alloc, columns, row, line_of(text, row))?;
        if people.push(person).is_err() {
            return Err(PeopleFault::OutOfMemory);
        }
    }
    Ok(people)
}
