//! What the session tells its members of itself, by the members of a session object.

ghost use Rattle.std.specs.Prelude.{◌≡◌, ◌≤◌, ◌+◌, ◌<◌, length, Some, IfOk, IfErr};
ghost use Rattle.serde_json.specs.Find.{get};
ghost use Rattle.serde_json.specs.View.{view, items_view};
ghost use Rattle.notices.specs.declared.notice_text.TheConstants.NoticeText.{MOST};
ghost use Rattle.json_fields.specs.Form.{each};
ghost use Rattle.json_fields.specs.Field.{passing, is_shown_within};
ghost use Rattle.session_object.specs.NoticeMembers.{has_digits, number_at, is_day_or_month, has_hyphen, is_date};
ghost use Rattle.session_object.specs.NoticeMembers.{title, date, reason_said, reasons_in, reasons};
ghost use Rattle.session_object.specs.Reading.{GivesPart, FailsPart};

use crate::session_fault::SessionFault;
use notices::{NoticeText, Notices};
use serde_json::Value;
use std::alloc::Global;
use table_terms::Items;
use user_names::is_shown_text;

// The text, if it may be shown and isn't too long.
#[tactic(auto, unfolding(json_fields::specs::Field::is_shown_within))]
fn notice_of(text: &str, most: usize) -> Option<NoticeText>
    requires { most ≤ MOST }
    ensures { result ≡ passing (is_shown_within most) (Some text.now) }
{
    if text.len() > most || !is_shown_text(text) {
        return None;
    }
    NoticeText::new(text)
}

/// The title in the member `title`, where there is one.
pub(crate) fn read_title(value: &Value) -> Option<Option<NoticeText>>
    ensures { result ≡ title.value (get title.name (view value.now)) }
{
    match value.get("title") {
        None => Some(None),
        Some(member) => match member.as_str() {
            Some(text) => match notice_of(text, Notices::MOST_TITLE) {
                Some(title) => Some(Some(title)),
                None => None,
            },
            None => None,
        },
    }
}

fn has_digits(bytes: &[u8], place: usize) -> bool
    requires { place + 1 < length bytes.now }
    ensures { result ≡ has_digits bytes.now place }
{
    bytes[place].is_ascii_digit() && bytes[place + 1].is_ascii_digit()
}

// Whether two digits from a place on are a number from 1 to a most.
fn is_day_or_month(most: u8, bytes: &[u8], place: usize) -> bool
    requires { place + 1 < length bytes.now }
    ensures { result ≡ is_day_or_month most bytes.now place }
{
    if !has_digits(bytes, place) {
        return false;
    }
    let number = (bytes[place] - 48) * 10 + (bytes[place + 1] - 48);
    1 <= number && number <= most
}

fn has_hyphen(bytes: &[u8], place: usize) -> bool
    requires { place < length bytes.now }
    ensures { result ≡ has_hyphen bytes.now place }
{
    bytes[place] == b'-'
}

/// Whether a text is a day as an object has it: `YYYY-MM-DD`.
#[tactic(auto, unfolding(crate::specs::NoticeMembers::is_date))]
pub fn is_date(text: &str) -> bool
    ensures { result ≡ is_date text.now }
{
    let bytes = text.as_bytes();
    bytes.len() == 10
        && has_digits(bytes, 0)
        && has_digits(bytes, 2)
        && has_hyphen(bytes, 4)
        && is_day_or_month(12, bytes, 5)
        && has_hyphen(bytes, 7)
        && is_day_or_month(31, bytes, 8)
}

fn date_of(text: &str) -> Option<NoticeText>
    ensures { result ≡ passing is_date (Some text.now) }
{
    if !is_date(text) {
        return None;
    }
    NoticeText::new(text)
}

/// The day of the session in the member `date`, where it is said.
pub(crate) fn read_date(value: &Value) -> Option<Option<NoticeText>>
    ensures { result ≡ date.value (get date.name (view value.now)) }
{
    match value.get("date") {
        None => Some(None),
        Some(member) => match member.as_str() {
            Some(text) => match date_of(text) {
                Some(date) => Some(Some(date)),
                None => None,
            },
            None => None,
        },
    }
}

fn reason_said(value: &Value) -> Option<NoticeText>
    ensures { result ≡ reason_said (view value.now) }
{
    match value.as_str() {
        Some(text) => notice_of(text, NoticeText::MOST),
        None => None,
    }
}

fn each_reason(alloc: Global, list: &[Value]) -> Result<Items<NoticeText>, SessionFault>
    ensures reasons { IfOk result (λ reasons. each reason_said (items_view list.now) ≡ Some reasons) }
    ensures fault { IfErr result (λ fault. FailsPart fault (each reason_said (items_view list.now))) }
{
    let mut reasons = Vec::new(alloc);
    for value in list {
        let Some(reason) = reason_said(value) else {
            return Err(SessionFault::BadField);
        };
        reasons.push(reason)?;
    }
    Ok(Items::new(reasons))
}

#[tactic(auto, using(json_fields::proofs::ListLemmas::item_count_of), unfolding(crate::specs::NoticeMembers::reasons_in))]
fn reasons_in(alloc: Global, list: &[Value]) -> Result<Items<NoticeText>, SessionFault>
    ensures { GivesPart result (reasons_in (items_view list.now)) }
{
    if list.is_empty() || list.len() > Notices::MOST_REASONS {
        return Err(SessionFault::BadField);
    }
    each_reason(alloc, list)
}

/// What the reasons of rulings mean, by the member `reasons`; no text where there is none.
pub(crate) fn read_reasons(alloc: Global, value: &Value) -> Result<Items<NoticeText>, SessionFault>
    ensures { GivesPart result (reasons.value (get reasons.name (view value.now))) }
{
    match value.get("reasons") {
        None => Ok(Items::new(Vec::new(alloc))),
        Some(member) => match member.as_array() {
            Some(list) => reasons_in(alloc, list.as_slice()),
            None => Err(SessionFault::BadField),
        },
    }
}
