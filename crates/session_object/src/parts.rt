//! The members of a session object.

ghost use Rattle.std.specs.Prelude.{◌≡◌, Some, None, IfOk, IfErr, option_map};
ghost use Rattle.serde_json.specs.View.{view};
ghost use Rattle.session_object.specs.Session.{members_say, session_of};
ghost use Rattle.session_object.specs.Reading.{FailsPart, session_of_parts};

use crate::asked_movement::AskedMovement;
use crate::edition_reading::read_edition;
use crate::member_names::has_session_members;
use crate::movement_reading::{read_asked_movement, read_shared_by, read_switched, stands_beside};
use crate::notice_reading::{read_date, read_reasons, read_title};
use crate::session_fault::SessionFault;
use crate::user::users_of;
use json_fields::{limited_at, read_absent, small_number_at, text_at};
use notices::NoticeText;
use serde_json::Value;
use session_opening::NewUser;
use session_roles::Edition;
use std::alloc::Global;
use table_terms::{Items, Pair};

/// The most visits of a solver's call.
const MOST_VISITS: u64 = 1_000_000_000_000_000_000;

/// What the members of a session object say.
#[derive(Drop)]
pub(crate) struct Parts<'t> {
    pub(crate) absent: Option<Pair>,
    pub(crate) budget: u64,
    pub(crate) date: Option<NoticeText>,
    pub(crate) edition: Edition,
    pub(crate) movement: AskedMovement,
    /// The PBN text of the boards.
    pub(crate) pbn: &'t [u8],
    pub(crate) per_set: u8,
    pub(crate) reasons: Items<NoticeText>,
    pub(crate) rounds: u8,
    pub(crate) shared_by: Option<u8>,
    pub(crate) switched: Option<u8>,
    pub(crate) tables: u8,
    pub(crate) title: Option<NoticeText>,
    pub(crate) users: Items<NewUser>,
}

#[tactic(auto, unfolding(crate::specs::Session::members_say))]
fn with_boards<'t>(alloc: Global, value: &'t Value) -> Result<Parts<'t>, SessionFault>
    ensures parts { IfOk result (λ parts. members_say None (view value.now) ≡ Some (session_of_parts parts)) }
    ensures fault { IfErr result (λ fault. FailsPart fault (members_say None (view value.now))) }
{
    if !has_session_members(value, false) {
        return Err(SessionFault::BadField);
    }
    let Some(absent) = read_absent(value) else {
        return Err(SessionFault::BadField);
    };
    let Some(budget) = limited_at(value, "budget", MOST_VISITS) else {
        return Err(SessionFault::BadField);
    };
    let Some(date) = read_date(value) else {
        return Err(SessionFault::BadField);
    };
    let Some(edition) = read_edition(value) else {
        return Err(SessionFault::BadField);
    };
    let movement = read_asked_movement(alloc, value)?;
    let Some(pbn) = text_at(value, "pbn") else {
        return Err(SessionFault::BadField);
    };
    let Some(per_set) = small_number_at(value, "per_set") else {
        return Err(SessionFault::BadField);
    };
    let reasons = read_reasons(alloc, value)?;
    let Some(rounds) = small_number_at(value, "rounds") else {
        return Err(SessionFault::BadField);
    };
    let Some(shared_by) = read_shared_by(value) else {
        return Err(SessionFault::BadField);
    };
    let Some(switched) = read_switched(value) else {
        return Err(SessionFault::BadField);
    };
    let Some(tables) = small_number_at(value, "tables") else {
        return Err(SessionFault::BadField);
    };
    let Some(title) = read_title(value) else {
        return Err(SessionFault::BadField);
    };
    let users = users_of(alloc, value, edition)?;
    Ok(Parts {
        absent,
        budget,
        date,
        edition,
        movement,
        pbn: pbn.as_bytes(),
        per_set,
        reasons,
        rounds,
        shared_by,
        switched,
        tables,
        title,
        users,
    })
}

#[tactic(auto, unfolding(crate::specs::Session::members_say))]
fn beside_boards<'t>(alloc: Global, value: &Value, pbn: &'t [u8]) -> Result<Parts<'t>, SessionFault>
    ensures parts { IfOk result (λ parts. members_say (Some pbn.now) (view value.now) ≡ Some (session_of_parts parts)) }
    ensures fault { IfErr result (λ fault.
        FailsPart fault (members_say (Some pbn.now) (view value.now))) }
{
    if !has_session_members(value, true) {
        return Err(SessionFault::BadField);
    }
    let Some(absent) = read_absent(value) else {
        return Err(SessionFault::BadField);
    };
    let Some(budget) = limited_at(value, "budget", MOST_VISITS) else {
        return Err(SessionFault::BadField);
    };
    let Some(date) = read_date(value) else {
        return Err(SessionFault::BadField);
    };
    let Some(edition) = read_edition(value) else {
        return Err(SessionFault::BadField);
    };
    let movement = read_asked_movement(alloc, value)?;
    let Some(per_set) = small_number_at(value, "per_set") else {
        return Err(SessionFault::BadField);
    };
    let reasons = read_reasons(alloc, value)?;
    let Some(rounds) = small_number_at(value, "rounds") else {
        return Err(SessionFault::BadField);
    };
    let Some(shared_by) = read_shared_by(value) else {
        return Err(SessionFault::BadField);
    };
    let Some(switched) = read_switched(value) else {
        return Err(SessionFault::BadField);
    };
    let Some(tables) = small_number_at(value, "tables") else {
        return Err(SessionFault::BadField);
    };
    let Some(title) = read_title(value) else {
        return Err(SessionFault::BadField);
    };
    let users = users_of(alloc, value, edition)?;
    Ok(Parts {
        absent,
        budget,
        date,
        edition,
        movement,
        pbn,
        per_set,
        reasons,
        rounds,
        shared_by,
        switched,
        tables,
        title,
        users,
    })
}

fn members_of<'t>(
    alloc: Global,
    value: &'t Value,
    given: Option<&'t [u8]>,
) -> Result<Parts<'t>, SessionFault>
    ensures parts { IfOk result (λ parts.
        members_say (option_map (λ bytes. bytes.now) given.entry) (view value.now) ≡ Some (session_of_parts parts)) }
    ensures fault { IfErr result (λ fault.
        FailsPart fault (members_say (option_map (λ bytes. bytes.now) given.entry) (view value.now))) }
{
    match given {
        Some(pbn) => beside_boards(alloc, value, pbn),
        None => with_boards(alloc, value),
    }
}

/// The members of a session object, if they may stand together; its boards' text is among them, unless it is given.
pub(crate) fn parts_of<'t>(
    alloc: Global,
    value: &'t Value,
    given: Option<&'t [u8]>,
) -> Result<Parts<'t>, SessionFault>
    ensures parts { IfOk result (λ parts.
        session_of (option_map (λ bytes. bytes.now) given.entry) (view value.now) ≡ Some (session_of_parts parts)) }
    ensures fault { IfErr result (λ fault.
        FailsPart fault (session_of (option_map (λ bytes. bytes.now) given.entry) (view value.now))) }
{
    let parts = members_of(alloc, value, given)?;
    if !stands_beside(
        &parts.movement,
        parts.rounds,
        parts.shared_by,
        parts.switched,
    ) {
        return Err(SessionFault::BadField);
    }
    Ok(parts)
}
