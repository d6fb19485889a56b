//! What is written of a board, and of its double-dummy table.

ghost use Rattle.std.specs.Prelude.{◌≡◌, IfOk, string_bytes};
ghost use Rattle.serde_json.specs.View.{view};
ghost use Rattle.serde_json.specs.Written.{compact_text};
ghost use Rattle.reply_texts.specs.BoardText.{board_data, declarer_data, tricks_data, analysis_data};
ghost use Rattle.reply_texts.specs.DataOf.{option_data};

use crate::hand_writing::push_deal;
use crate::to_json::list_value;
use cards::Deal;
use disclosure_rules::Marks;
use json_fields::ObjectWriter;
use query_filter::TrickTable;
use serde_json::Value;
use std::alloc::{AllocError, Global};
use std::fmt::Write;
use table_terms::{Place, Strain};

// How many bytes the text of a board has at most: its deal has 69.
const LONGEST: usize = 119;

/// The text of a board, without a tree of its values, since whoever looks at boards asks for one after another.
pub(crate) fn board_text(
    alloc: Global,
    number: u8,
    deal: &Deal,
    marks: Marks,
) -> Result<String, AllocError>
    ensures { IfOk result (λ text. string_bytes text ≡ compact_text (board_data number deal.now marks)) }
{
    let (dealer, vulnerability) = (marks.dealer, marks.vulnerability);
    let mut text = String::with_capacity(alloc, LONGEST)?;
    text.push_str("{\"deal\":\"")?;
    push_deal(&mut text, deal)?;
    write!(
        text,
        "\",\"dealer\":\"{dealer}\",\"number\":{number},\"vul\":\"{vulnerability}\"}}"
    )?;
    Ok(text)
}

pub(crate) fn analysis_value(
    alloc: Global,
    number: u8,
    tricks: &Option<TrickTable>,
) -> Result<Value, AllocError>
    ensures { IfOk result (λ value. view value ≡ analysis_data number tricks.now) }
{
    ObjectWriter::new(alloc)
        .number("board", number)
        .member("tricks", found_tricks(alloc, tricks))
        .object()
}

fn found_tricks(alloc: Global, tricks: &Option<TrickTable>) -> Result<Value, AllocError>
    ensures { IfOk result (λ value. view value ≡ option_data tricks_data tricks.now) }
{
    match tricks {
        Some(tricks) => tricks_value(alloc, tricks),
        None => Ok(Value::Null),
    }
}

fn tricks_value(alloc: Global, tricks: &TrickTable) -> Result<Value, AllocError>
    ensures { IfOk result (λ value. view value ≡ tricks_data tricks.now) }
{
    ObjectWriter::new(alloc)
        .member("E", declarer_value(alloc, tricks, Place::East))
        .member("N", declarer_value(alloc, tricks, Place::North))
        .member("S", declarer_value(alloc, tricks, Place::South))
        .member("W", declarer_value(alloc, tricks, Place::West))
        .object()
}

fn declarer_value(alloc: Global, tricks: &TrickTable, declarer: Place) -> Result<Value, AllocError>
    ensures { IfOk result (λ value. view value ≡ declarer_data tricks.now declarer) }
{
    let numbers = [
        tricks.tricks(Strain::Spades, declarer),
        tricks.tricks(Strain::Hearts, declarer),
        tricks.tricks(Strain::Diamonds, declarer),
        tricks.tricks(Strain::Clubs, declarer),
        tricks.tricks(Strain::NoTrump, declarer),
    ];
    list_value(alloc, &numbers)
}
