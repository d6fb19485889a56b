//! A person by the fields of a row.

ghost use Rattle.std.specs.Prelude.{◌≡◌, ◌≤◌, ◌∷◌, [], IfOk, IfSome, codes};
ghost use Rattle.table_terms.specs.Place.{place_letter};
ghost use Rattle.csv.specs.Records.{fields_of};
ghost use Rattle.people_list.specs.Fields.{under_column};
ghost use Rattle.people_list.specs.Person.{IsPerson, IsSeatIn, IsTextIn};
ghost use Rattle.people_list.specs.Roles.{NamesRoles};

use crate::field::text_under;
use crate::people_fault::{LineFault, PeopleFault};
use csv::ByteRecord;
use disclosure_rules::Seat;
use rbac::is_user_name;
use session_roles::Role;
use std::alloc::Global;
use table_terms::{Items, Pair, Place};
use user_names::{MemberNumber, Name, ShownName};

/// A person of a session, as a line tells it.
#[derive(Drop)]
pub struct Person {
    /// The line, counted from 1.
    pub line: u64,
    pub shown: ShownName,
    pub seat: Option<Seat>,
    /// The roles that the line names, in its order.
    pub roles: Items<Role>,
    pub number: Option<MemberNumber>,
    /// The name by which the person wants to sign in.
    pub sign_in: Option<Name>,
}

/// What a row says of a person, but for the roles.
#[derive(Clone, Copy)]
struct Said {
    shown: ShownName,
    seat: Option<Seat>,
    number: Option<MemberNumber>,
    sign_in: Option<Name>,
}

/// The person of a row on this line.
pub(crate) fn person_of(
    alloc: Global,
    columns: &ByteRecord,
    row: &ByteRecord,
    line: u64,
) -> Result<Person, PeopleFault>
    ensures { IfOk result (IsPerson (fields_of columns.now) (fields_of row.now)) }
{
    let said = match said_of(columns, row) {
        Ok(said) => said,
        Err(fault) => return Err(PeopleFault::Line(line, fault)),
    };
    let roles = roles_of(alloc, columns, row, line)?;
    if roles.is_empty() && said.seat.is_none() {
        return Err(PeopleFault::Line(line, LineFault::NoPart));
    }
    Ok(Person {
        line,
        shown: said.shown,
        seat: said.seat,
        roles: Items::new(roles),
        number: said.number,
        sign_in: said.sign_in,
    })
}

fn said_of(columns: &ByteRecord, row: &ByteRecord) -> Result<Said, LineFault>
    ensures shown { IfOk result (λ said. under_column (fields_of columns.now) (fields_of row.now) (codes "name") ≡ said.shown) }
    ensures seat { IfOk result (λ said. IsSeatIn (under_column (fields_of columns.now) (fields_of row.now) (codes "pair"))
        (under_column (fields_of columns.now) (fields_of row.now) (codes "place")) said.seat) }
    ensures number { IfOk result (λ said.
        IsTextIn (under_column (fields_of columns.now) (fields_of row.now) (codes "number")) said.number) }
    ensures sign_in { IfOk result (λ said.
        IsTextIn (under_column (fields_of columns.now) (fields_of row.now) (codes "sign_in")) said.sign_in) }
{
    Ok(Said {
        shown: shown_in(columns, row)?,
        seat: seat_in(columns, row)?,
        number: number_in(columns, row)?,
        sign_in: sign_in_in(columns, row)?,
    })
}

fn shown_in(columns: &ByteRecord, row: &ByteRecord) -> Result<ShownName, LineFault>
    ensures { IfOk result (λ shown. under_column (fields_of columns.now) (fields_of row.now) (codes "name") ≡ shown) }
{
    match ShownName::new(text_under(columns, row, "name")?) {
        Ok(shown) => Ok(shown),
        Err(_) => Err(LineFault::BadShown),
    }
}

fn seat_in(columns: &ByteRecord, row: &ByteRecord) -> Result<Option<Seat>, LineFault>
    ensures { IfOk result (IsSeatIn (under_column (fields_of columns.now) (fields_of row.now) (codes "pair"))
        (under_column (fields_of columns.now) (fields_of row.now) (codes "place"))) }
{
    let pair = text_under(columns, row, "pair")?;
    let place = text_under(columns, row, "place")?;
    seat_of(pair, place)
}

fn seat_of(pair: &str, place: &str) -> Result<Option<Seat>, LineFault>
    ensures { IfOk result (IsSeatIn pair.now place.now) }
{
    match (pair.is_empty(), place.is_empty()) {
        (true, true) => Ok(None),
        (false, false) => match pair.parse::<Pair>() {
            Ok(pair) => match place_named(place) {
                Some(place) => Ok(Some(Seat { pair, place })),
                None => Err(LineFault::BadPlace),
            },
            Err(_) => Err(LineFault::BadPair),
        },
        _ => Err(LineFault::BadSeat),
    }
}

fn place_named(text: &str) -> Option<Place>
    ensures { IfSome result (λ place. text.now ≡ place_letter place ∷ []) }
{
    match text.as_bytes() {
        [letter] => Place::from_letter(char::from(*letter)),
        _ => None,
    }
}

fn number_in(columns: &ByteRecord, row: &ByteRecord) -> Result<Option<MemberNumber>, LineFault>
    ensures { IfOk result (IsTextIn (under_column (fields_of columns.now) (fields_of row.now) (codes "number"))) }
{
    let text = text_under(columns, row, "number")?;
    if text.is_empty() {
        return Ok(None);
    }
    match MemberNumber::new(text) {
        Ok(number) => Ok(Some(number)),
        Err(_) => Err(LineFault::BadNumber),
    }
}

fn sign_in_in(columns: &ByteRecord, row: &ByteRecord) -> Result<Option<Name>, LineFault>
    ensures { IfOk result (IsTextIn (under_column (fields_of columns.now) (fields_of row.now) (codes "sign_in"))) }
{
    let text = text_under(columns, row, "sign_in")?;
    if text.is_empty() {
        return Ok(None);
    }
    if !is_user_name(text) {
        return Err(LineFault::BadSignIn);
    }
    match Name::new(text) {
        Ok(name) => Ok(Some(name)),
        Err(_) => Err(LineFault::BadSignIn),
    }
}

fn roles_of(
    alloc: Global,
    columns: &ByteRecord,
    row: &ByteRecord,
    line: u64,
) -> Result<Vec<Role>, PeopleFault>
    ensures { IfOk result (λ roles.
        NamesRoles (under_column (fields_of columns.now) (fields_of row.now) (codes "roles")) roles.items) }
{
    match text_under(columns, row, "roles") {
        Ok(text) => roles_in(alloc, text, line),
        Err(fault) => Err(PeopleFault::Line(line, fault)),
    }
}

// The roles of a field on this line, by their names.
fn roles_in(alloc: Global, text: &str, line: u64) -> Result<Vec<Role>, PeopleFault>
    ensures { IfOk result (λ roles. NamesRoles text.now roles.items) }
{
    let mut roles = Vec::new(alloc);
    for word in text.split_whitespace() {
        let Some(role) = Role::from_name(word) else {
            return Err(PeopleFault::Line(line, LineFault::BadRole));
        };
        if roles.push(role).is_err() {
            return Err(PeopleFault::OutOfMemory);
        }
    }
    Ok(roles)
}
