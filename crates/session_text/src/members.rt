//! Members that may be left out.

ghost use Rattle.std.specs.Prelude.{◌≡◌, IfOk, option_map, codes};
ghost use Rattle.serde_json.specs.Data.{Members, string};
ghost use Rattle.serde_json.specs.View.{view};
ghost use Rattle.json_fields.specs.Written.{HasMembers};
ghost use Rattle.session_text.specs.Members.{put_if_there};
ghost use Rattle.session_text.specs.SessionData.{whole_data, pair_data, seat_pair, seat_place, text_data};

use disclosure_rules::Seat;
use json_fields::{ObjectWriter, string_value};
use notices::NoticeText;
use serde_json::Value;
use std::alloc::{AllocError, Global};
use table_terms::Pair;

/// Adds a number, where there is one.
pub(crate) fn with_number(writer: ObjectWriter, name: &str, number: Option<u8>) -> ObjectWriter
    ensures { (members : Members) → HasMembers writer members →
        HasMembers result (put_if_there name.now (option_map whole_data number) members) }
{
    match number {
        Some(number) => writer.number(name, number),
        None => writer,
    }
}

/// Adds a pair, where there is one.
pub(crate) fn with_pair(
    alloc: Global,
    writer: ObjectWriter,
    name: &str,
    pair: Option<Pair>,
) -> ObjectWriter
    ensures { (members : Members) → HasMembers writer members →
        HasMembers result (put_if_there name.now (option_map pair_data pair) members) }
{
    match pair {
        Some(pair) => writer.member(name, string_value(pair.to_string(alloc))),
        None => writer,
    }
}

/// Adds the pair and the place of a seat, where there is one.
pub(crate) fn with_seat(alloc: Global, writer: ObjectWriter, seat: Option<Seat>) -> ObjectWriter
    ensures { (members : Members) → HasMembers writer members →
        HasMembers result (put_if_there (codes "place") (seat_place seat)
        (put_if_there (codes "pair") (seat_pair seat) members)) }
{
    match seat {
        Some(seat) => writer
            .member("pair", string_value(seat.pair.to_string(alloc)))
            .member("place", string_value(seat.place.to_string(alloc))),
        None => writer,
    }
}

/// Adds a notice, where there is one.
pub(crate) fn with_notice(
    alloc: Global,
    writer: ObjectWriter,
    name: &str,
    notice: Option<NoticeText>,
) -> ObjectWriter
    ensures { (members : Members) → HasMembers writer members →
        HasMembers result (put_if_there name.now (text_data notice) members) }
{
    match notice {
        Some(notice) => writer.member(name, notice_value(alloc, &notice)),
        None => writer,
    }
}

/// A notice as a value.
pub(crate) fn notice_value(alloc: Global, notice: &NoticeText) -> Result<Value, AllocError>
    ensures { IfOk result (λ value. view value ≡ string notice.now) }
{
    Value::try_from_str(alloc, notice.as_str())
}
