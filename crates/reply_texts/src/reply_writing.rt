//! What is written of a reply to a query.

ghost use Rattle.std.specs.Prelude.{◌≡◌, IfOk, false, string_bytes};
ghost use Rattle.serde_json.specs.Data.{Data};
ghost use Rattle.serde_json.specs.View.{view};
ghost use Rattle.serde_json.specs.Written.{compact_text, has_float};
ghost use Rattle.reply_texts.specs.ReplyText.{denial_data, body_word, body_data, reply_text, around};

use crate::accounts_writing::accounts_value;
use crate::board_writing::{analysis_value, board_text};
use crate::costs_writing::costs_value;
use crate::list_writing::boards_value;
use crate::par_writing::par_value;
use crate::status_writing::status_value;
use crate::table_writing::{play_value, reason_value};
use crate::to_json::list_value;
use crate::traveller_writing::traveller_value;
use denials::{Denial, explain};
use json_fields::ObjectWriter;
use serde_json::Value;
use session_queries::{Body, Reply};
use std::alloc::{AllocError, Global};
use std::fmt::Write;

/// The text of a reply.
pub fn reply_text(alloc: Global, reply: &Reply) -> Result<String, AllocError>
    ensures { IfOk result (λ text. string_bytes text ≡ reply_text reply.now) }
{
    let body = body_text(alloc, &reply.body)?;
    with_version(alloc, body_word(&reply.body), body.as_str(), reply.version)
}

// How many bytes stand around a body's text at most.
const AROUND: usize = 45;

// A body's text under its word, beside the version.
fn with_version(alloc: Global, word: &str, body: &str, version: usize) -> Result<String, AllocError>
    ensures { IfOk result (λ text. string_bytes text ≡ around word.now version body.now) }
{
    let mut text = String::with_capacity(alloc, body.len().saturating_add(AROUND))?;
    write!(text, "{{\"{word}\":{body},\"version\":{version}}}")?;
    Ok(text)
}

// The word for the kind of a reply.
fn body_word(body: &Body) -> &'static str
    ensures { result.now ≡ body_word body.now }
{
    match body {
        Body::NoSuchBoard | Body::NoSuchCell | Body::Behind => "error",
        Body::Denied(_) => "denied",
        Body::Status { .. } => "status",
        Body::Board { .. } => "board",
        Body::Traveller { .. } => "traveller",
        Body::Analysis { .. } => "analysis",
        Body::Par { .. } => "par",
        Body::Play { .. } => "play",
        Body::Costs { .. } => "costs",
        Body::Reason { .. } => "reason",
        Body::List { .. } => "list",
        Body::Ranking { .. } => "ranking",
        Body::Accounts { .. } => "accounts",
    }
}

#[tactic(auto, using(crate::proofs::FloatLemmas::none_in_a_body))]
fn body_text(alloc: Global, body: &Body) -> Result<String, AllocError>
    ensures { IfOk result (λ text. string_bytes text ≡ compact_text (body_data body.now)) }
{
    match body {
        Body::Board {
            number,
            deal,
            marks,
        } => board_text(alloc, *number, deal, *marks),
        Body::NoSuchBoard => text_of(alloc, Value::try_from_str(alloc, "NoSuchBoard")),
        Body::NoSuchCell => text_of(alloc, Value::try_from_str(alloc, "NoSuchCell")),
        Body::Behind => text_of(alloc, Value::try_from_str(alloc, "Behind")),
        Body::Denied(denial) => text_of(alloc, denial_value(alloc, *denial)),
        Body::Status {
            public,
            seats,
            names,
            notices,
        } => text_of(
            alloc,
            status_value(
                alloc,
                public.public(),
                seats.as_slice(),
                names.as_slice(),
                notices.notices(),
            ),
        ),
        Body::Traveller { number, rows } => {
            text_of(alloc, traveller_value(alloc, *number, rows.as_slice()))
        }
        Body::Analysis { number, tricks } => {
            text_of(alloc, analysis_value(alloc, *number, tricks))
        }
        Body::Par { number, par } => text_of(alloc, par_value(alloc, *number, par)),
        Body::Play { cell, cards } => text_of(alloc, play_value(alloc, *cell, cards)),
        Body::Costs { cell, costs } => text_of(alloc, costs_value(alloc, *cell, costs)),
        Body::Reason { cell, code } => text_of(alloc, reason_value(alloc, *cell, *code)),
        Body::List { boards, more } => {
            text_of(alloc, boards_value(alloc, boards.as_slice(), *more))
        }
        Body::Ranking { standings } => text_of(alloc, list_value(alloc, standings.as_slice())),
        Body::Accounts { users, pairs } => text_of(
            alloc,
            accounts_value(alloc, users.as_slice(), pairs.as_slice()),
        ),
    }
}

// The text of a value without a float, if there is one.
fn text_of(alloc: Global, value: Result<Value, AllocError>) -> Result<String, AllocError>
    ensures { (written : Data) → has_float written ≡ false → IfOk value (λ v. view v ≡ written) →
        IfOk result (λ text. string_bytes text ≡ compact_text written) }
{
    let value = value?;
    value.to_string(alloc)
}

fn denial_value(alloc: Global, denial: Denial) -> Result<Value, AllocError>
    ensures { IfOk result (λ value. view value ≡ denial_data denial) }
{
    ObjectWriter::new(alloc)
        .number("board", denial.board)
        .number("rule", denial.rule.number(denial.edition))
        .number("table", denial.table)
        .member("why", Value::try_from_str(alloc, explain(denial)))
        .object()
}
