//! A session object that is looked at before a session is opened with it.

ghost use Rattle.std.specs.Prelude.{◌≡◌, ◌≤◌, ◌<◌, ℕ, List, length, get_or, None, Some, IfOk, IfErr, OnErr, IsSome, option_map};
ghost use Rattle.serde_json.specs.Data.{Data};
ghost use Rattle.movement.specs.Movement.{boards_of};
ghost use Rattle.session_state.specs.SessionState.{SessionState};
ghost use Rattle.session_opening.specs.Opening.{opening_of};
ghost use Rattle.session_opening.specs.OpeningRefusal.{opening_refusal};
ghost use Rattle.session_opening.specs.declared.new_user.NewUser.{NewUser};
ghost use Rattle.session_object.specs.Reading.{IsObjectText, IsSessionRefused, IsReadAsJson};
ghost use Rattle.session_object.specs.declared.session_fault.SessionFault.TheVariants.{OutOfMemory};
ghost use Rattle.opened_session.specs.Opened.{OpensWith, OpensNoneWith};
ghost use Rattle.session_check.specs.Lines.{boards_text, offset_of, IsLineIn, LineIsTold};
ghost use Rattle.std.specs.Option.{IsSomeAnd};
ghost use Rattle.opened_session.specs.declared.opening_fault.OpeningFault.TheVariants.{Session, Opening};
ghost use Rattle.session_check.specs.Users.{TellsAt, IsUserAt, first_in_the_way};
ghost use Rattle.session_check.specs.Places.{TellsWhom, TellsWhere, RefusesConfig};
ghost use Rattle.session_check.specs.Summaries.{summary_of};

use crate::line::{line_at, offset_of};
use crate::refused::{NamedUser, Refused};
use crate::refused_user::{first_in_the_way, refused_user, user_at};
use crate::summary::Summary;
use json_fields::text_at;
use opened_session::OpeningFault;
use serde_json::Value;
use session_object::{SessionFault, read_session};
use session_opening::{Config, NewUser, OpeningRefusal};
use std::alloc::{AllocError, Global};
use std::{mem, str};
use table_terms::Items;

/// What a session that a session object opens has, or why it opens none, and where. The boards are the ones that are given
/// beside it, or else those in it. Want of memory is told as a fault of the object.
pub fn check_session(alloc: Global, text: &[u8], given: Option<&[u8]>) -> Result<Summary, Refused>
    ensures opens { IfOk result (λ summary. (opening : SessionState)
        × OpensWith (option_map (λ bytes. bytes.now) given.entry) text.now opening × (summary ≡ summary_of opening)) }
    ensures none { IfErr result (λ refused.
        OpensNoneWith (option_map (λ bytes. bytes.now) given.entry) refused.fault text.now) }
    ensures line { IfErr result (λ refused.
        TellsWhere (option_map (λ bytes. bytes.now) given.entry) text.now refused.fault refused.line) }
    ensures users { IfErr result (λ refused.
        TellsWhom (option_map (λ bytes. bytes.now) given.entry) text.now refused.fault refused.user refused.other) }
{
    match read_session(alloc, text, given) {
        Ok(object) => check_opening(alloc, object.config),
        Err(fault) => Err(refused_object(alloc, text, given, fault)),
    }
}

// What a session has, or why it isn't opened with this.
fn check_opening(alloc: Global, config: Config) -> Result<Summary, Refused>
    requires { boards_of config.movement ≤ length config.boards }
    ensures opens { IfOk result (λ summary. (opening_refusal config ≡ None) × (summary ≡ summary_of (opening_of config))) }
    ensures refused { IfErr result (λ refused. RefusesConfig config refused.fault refused.line refused.user refused.other) }
{
    match config.open(alloc) {
        Ok(_state) => Ok(summary_of(&config)),
        Err(OpeningRefusal::OutOfMemory) => Err(out_of_memory()),
        Err(cause) => Err(refused_opening(alloc, config, cause)),
    }
}

fn summary_of(config: &Config) -> Summary
    ensures { result ≡ summary_of (opening_of config.now) }
{
    Summary {
        tables: config.movement.tables(),
        rounds: config.movement.rounds(),
        boards: config.movement.boards(),
        users: config.users.as_slice().len(),
    }
}

// The cause, and the user for whom it is one.
fn refused_opening(alloc: Global, config: Config, cause: OpeningRefusal) -> Refused
    requires boards { boards_of config.movement ≤ length config.boards }
    requires refused { opening_refusal config ≡ Some cause }
    ensures { RefusesConfig config result.fault result.line result.user result.other }
{
    let mut config = config;
    let users = mem::replace(&mut config.users, Items::new(Vec::new(alloc)));
    match refused_user(alloc, &mut config, users.as_slice()) {
        Ok(Some(place)) => refused_at(users.as_slice(), place, cause),
        Ok(None) => Refused {
            fault: OpeningFault::Opening(cause),
            line: None,
            user: None,
            other: None,
        },
        Err(_) => out_of_memory(),
    }
}

// The cause, which is one for the user in a place.
fn refused_at(users: &[NewUser], place: usize, cause: OpeningRefusal) -> Refused
    requires { place < length users.now }
    ensures fault { result.fault ≡ Opening cause }
    ensures line { result.line ≡ None }
    ensures user { IsSomeAnd result.user (IsUserAt users.now place) }
    ensures other { (d : NewUser) →
        TellsAt users.now (first_in_the_way cause users.now place (get_or users.now place d)) result.other }
{
    Refused {
        fault: OpeningFault::Opening(cause),
        line: None,
        user: Some(user_at(users, place)),
        other: other_at(users, place, cause),
    }
}

// The first user before a place who is in the way of the user there.
fn other_at(users: &[NewUser], place: usize, cause: OpeningRefusal) -> Option<NamedUser>
    requires { place < length users.now }
    ensures { (d : NewUser) → TellsAt users.now (first_in_the_way cause users.now place (get_or users.now place d)) result }
{
    match first_in_the_way(users, place, cause) {
        Some(before) => Some(user_at(users, before)),
        None => None,
    }
}

// Why the object's text isn't read as one, with the line of the boards' text in which the fault stands.
fn refused_object(alloc: Global, text: &[u8], given: Option<&[u8]>, fault: SessionFault) -> Refused
    requires refused { IsSessionRefused fault (option_map (λ bytes. bytes.now) given) text.now }
    requires memory { fault ≡ OutOfMemory → IsReadAsJson text.now }
    ensures none { OpensNoneWith (option_map (λ bytes. bytes.now) given.entry) result.fault text.now }
    ensures line { TellsWhere (option_map (λ bytes. bytes.now) given.entry) text.now result.fault result.line }
    ensures users { TellsWhom (option_map (λ bytes. bytes.now) given.entry) text.now result.fault result.user result.other }
{
    match line_of_fault(alloc, text, given, fault) {
        Ok(line) => unread(fault, line),
        Err(_) => out_of_memory(),
    }
}

// The line of the boards' text in which a fault stands, if it is one at a byte.
fn line_of_fault(
    alloc: Global,
    text: &[u8],
    given: Option<&[u8]>,
    fault: SessionFault,
) -> Result<Option<usize>, AllocError>
    requires { IsSessionRefused fault (option_map (λ bytes. bytes.now) given) text.now }
    ensures line { IfOk result (LineIsTold (option_map (λ bytes. bytes.now) given.entry) text.now (offset_of fault)) }
    ensures memory { OnErr result (IsReadAsJson text.now) }
{
    match offset_of(fault) {
        Some(offset) => match line_in(alloc, text, given, offset) {
            Ok(line) => Ok(Some(line)),
            Err(error) => Err(error),
        },
        None => Ok(None),
    }
}

fn unread(fault: SessionFault, line: Option<usize>) -> Refused
    ensures fault { result.fault ≡ Session fault }
    ensures line { result.line ≡ line }
    ensures user { result.user ≡ None }
    ensures other { result.other ≡ None }
{
    Refused {
        fault: OpeningFault::Session(fault),
        line,
        user: None,
        other: None,
    }
}

fn out_of_memory() -> Refused
    ensures fault { result.fault ≡ Session OutOfMemory }
    ensures line { result.line ≡ None }
    ensures user { result.user ≡ None }
    ensures other { result.other ≡ None }
{
    unread(SessionFault::OutOfMemory, None)
}

// The line of the byte at an offset of the boards' text.
fn line_in(
    alloc: Global,
    text: &[u8],
    given: Option<&[u8]>,
    offset: usize,
) -> Result<usize, AllocError>
    requires { (d : Data) × IsObjectText text.now d × IsSome (boards_text (option_map (λ bytes. bytes.now) given) d) }
    ensures { IfOk result (IsLineIn (option_map (λ bytes. bytes.now) given.entry) text.now offset) }
{
    match given {
        Some(boards) => Ok(line_at(boards, offset)),
        None => line_in_object(alloc, text, offset),
    }
}

// The same of the text that stands in the object.
fn line_in_object(alloc: Global, text: &[u8], offset: usize) -> Result<usize, AllocError>
    requires { (d : Data) × IsObjectText text.now d × IsSome (boards_text None d) }
    ensures { IfOk result (IsLineIn None text.now offset) }
{
    let Ok(text) = str::from_utf8(text) else {
        unreachable!()
    };
    let value = match Value::from_str(alloc, text) {
        Ok(value) => value,
        Err(error) if error.is_memory() => return Err(AllocError),
        Err(_) => unreachable!(),
    };
    match text_at(&value, "pbn") {
        Some(boards) => Ok(line_at(boards.as_bytes(), offset)),
        None => unreachable!(),
    }
}
