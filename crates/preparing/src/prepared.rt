//! A session as it is prepared.

ghost use Rattle.std.specs.Prelude.{◌≡◌, ◌≤◌, [], Some, IfOk, IfSome, OnOk, length, option_map, string_bytes, true};
ghost use Rattle.json_fields.specs.Field.{is_shown_within};
ghost use Rattle.notices.specs.declared.notice_text.TheConstants.NoticeText.{MOST};
ghost use Rattle.notices.specs.declared.notices.TheConstants.Notices.{MOST_TITLE};
ghost use Rattle.session_object.specs.NoticeMembers.{is_date};
ghost use Rattle.session_state.specs.SessionState.{SessionState};
ghost use Rattle.opened_session.specs.Opened.{OpensWith};
ghost use Rattle.preparing.specs.Guests.{HasShortNotices, IsTextFor, IsWrittenFor};
ghost use Rattle.preparing.specs.Planned.{movement_planned};
ghost use Rattle.preparing.specs.Prepared.{IsPreparedFor};

use crate::cards_page::cards_page;
use crate::guest::{Guest, guests_of};
use crate::plan::Plan;
use crate::preparing_fault::PreparingFault;
use crate::sign_in_list::sign_in_list;
use crate::users::users_of;
use crate::writable::{are_small, can_be_said};
use named_movements::MovementWord;
use notices::{NoticeText, Notices};
use opened_session::{OpeningFault, open_session};
use people_list::Person;
use session_object::{AskedMovement, SessionFault, is_date};
use session_opening::OpeningRefusal;
use session_roles::Edition;
use session_text::{AskedSession, session_text};
use sign_ins::SignInToken;
use std::alloc::{AllocError, Global};
use table_terms::Items;
use user_names::is_shown_text;

/// What is prepared for a session.
#[derive(Drop)]
pub struct Prepared {
    /// The text of its object, whose boards are given beside it.
    pub session: String,
    /// A CSV text of who signs in by what.
    pub sign_ins: String,
    /// A page of cards to print, one for each person.
    pub cards: String,
}

/// What is prepared for a session of these people, each with the token in the same place, and of these boards. Its object
/// opens, or nothing is prepared.
pub fn prepare(
    alloc: Global,
    plan: &Plan<'_>,
    people: &[Person],
    tokens: &[SignInToken],
    boards: &[u8],
) -> Result<Prepared, PreparingFault>
    ensures opens { IfOk result (λ prepared. (opening : SessionState)
        × OpensWith (Some boards.now) (string_bytes prepared.session) opening) }
    ensures people { IfOk result (IsPreparedFor plan.now people.now tokens.now boards.now) }
{
    check_notices(plan)?;
    let guests = guests_of(alloc, people, tokens)?;
    prepare_for(alloc, plan, guests.as_slice(), boards)
}

// The same for people with what they sign in by.
fn prepare_for(
    alloc: Global,
    plan: &Plan<'_>,
    guests: &[Guest<'_>],
    boards: &[u8],
) -> Result<Prepared, PreparingFault>
    ensures opens { IfOk result (λ prepared. (opening : SessionState)
        × OpensWith (Some boards.now) (string_bytes prepared.session) opening) }
    ensures guests { IfOk result (λ prepared. HasShortNotices plan.now → IsWrittenFor plan.now guests.now prepared) }
{
    let sign_ins = sign_in_list(alloc, guests)?;
    let cards = cards_page(alloc, plan.address, guests)?;
    let session = text_of(alloc, plan, guests)?;
    match open_session(alloc, session.as_bytes(), Some(boards)) {
        Ok(_opened) if can_be_said(plan, guests) => Ok(Prepared {
            session,
            sign_ins,
            cards,
        }),
        // What an object can't say opens nothing, so this is told of no plan.
        Ok(_opened) => Err(PreparingFault::Unopened(OpeningFault::Session(SessionFault::BadField))),
        Err(fault) => Err(fault_of(alloc, plan, guests, boards, fault)),
    }
}

// A title and a date are such as a session object may have.
fn check_notices(plan: &Plan<'_>) -> Result<(), PreparingFault>
    ensures { OnOk result (HasShortNotices plan.now) }
{
    if !may_be_title(plan.title) {
        return Err(PreparingFault::BadTitle);
    }
    if !may_be_date(plan.date) {
        return Err(PreparingFault::BadDate);
    }
    Ok(())
}

#[tactic(auto, unfolding(json_fields::specs::Field::is_shown_within))]
fn may_be_title(title: Option<&str>) -> bool
    ensures short { result ≡ true → IfSome title.entry (λ text. length text.now ≤ MOST) }
    ensures title { result ≡ true → IfSome title.entry (λ text. is_shown_within MOST_TITLE text.now ≡ true) }
{
    match title {
        Some(title) => title.len() <= Notices::MOST_TITLE && is_shown_text(title),
        None => true,
    }
}

#[tactic(auto, using(crate::proofs::PlannedLemmas::date_is_short))]
fn may_be_date(date: Option<&str>) -> bool
    ensures short { result ≡ true → IfSome date.entry (λ text. length text.now ≤ MOST) }
    ensures date { result ≡ true → IfSome date.entry (λ text. is_date text.now ≡ true) }
{
    match date {
        Some(date) => is_date(date),
        None => true,
    }
}

// The text of the object of a session of these people.
fn text_of(alloc: Global, plan: &Plan<'_>, guests: &[Guest<'_>]) -> Result<String, AllocError>
    ensures { IfOk result (λ text. HasShortNotices plan.now → IsTextFor plan.now guests.now (string_bytes text)) }
{
    let users = users_of(alloc, guests)?;
    are_small(plan);
    let asked = AskedSession {
        absent: plan.absent,
        budget: plan.budget,
        edition: Edition::Second,
        movement: movement_of(plan.movement),
        notices: notices_of(alloc, plan.title, plan.date),
        per_set: plan.per_set,
        rounds: plan.rounds,
        shared_by: None,
        switched: plan.switched,
        tables: plan.tables,
        users,
    };
    session_text(alloc, &asked)
}

// The movement that is asked for: that of a name, or a Mitchell.
fn movement_of(word: Option<MovementWord>) -> AskedMovement
    ensures { result ≡ movement_planned word }
{
    match word {
        Some(word) => AskedMovement::Word(word),
        None => AskedMovement::Nothing,
    }
}

// What the session tells of itself. A text that is too long for it is found before.
fn notices_of(alloc: Global, title: Option<&str>, date: Option<&str>) -> Notices
    ensures title { IfSome title.entry (λ text. length text.now ≤ MOST) →
        result.title ≡ option_map (λ text. text.now) title.entry }
    ensures date { IfSome date.entry (λ text. length text.now ≤ MOST) →
        result.date ≡ option_map (λ text. text.now) date.entry }
    ensures reasons { result.reasons ≡ [] }
{
    Notices {
        title: notice_of(title),
        date: notice_of(date),
        reasons: Items::new(Vec::new(alloc)),
    }
}

fn notice_of(text: Option<&str>) -> Option<NoticeText>
    ensures { IfSome text.entry (λ t. length t.now ≤ MOST) → result ≡ option_map (λ t. t.now) text.entry }
{
    match text {
        Some(text) => NoticeText::new(text),
        None => None,
    }
}

// Why a session doesn't open, with the line of the first person with whom it doesn't, where it is a person's fault.
fn fault_of(
    alloc: Global,
    plan: &Plan<'_>,
    guests: &[Guest<'_>],
    boards: &[u8],
    fault: OpeningFault,
) -> PreparingFault {
    let cause = match fault {
        OpeningFault::Opening(OpeningRefusal::LastAdministrator) | OpeningFault::Session(_) => {
            return unopened(fault);
        }
        OpeningFault::Opening(cause) => cause,
    };
    for place in 0..guests.len() {
        match is_refused(alloc, plan, &guests[..place + 1], boards) {
            Ok(false) => {}
            Ok(true) => return PreparingFault::Person(guests[place].person.line, cause),
            Err(_) => return PreparingFault::OutOfMemory,
        }
    }
    unopened(fault)
}

fn unopened(fault: OpeningFault) -> PreparingFault {
    if fault.is_out_of_memory() {
        PreparingFault::OutOfMemory
    } else {
        PreparingFault::Unopened(fault)
    }
}

// Whether the session of these people alone is refused because of one of them.
fn is_refused(
    alloc: Global,
    plan: &Plan<'_>,
    guests: &[Guest<'_>],
    boards: &[u8],
) -> Result<bool, AllocError> {
    let text = text_of(alloc, plan, guests)?;
    match open_session(alloc, text.as_bytes(), Some(boards)) {
        Ok(_) | Err(OpeningFault::Opening(OpeningRefusal::LastAdministrator)) => Ok(false),
        Err(fault) if fault.is_out_of_memory() => Err(AllocError),
        Err(_) => Ok(true),
    }
}
