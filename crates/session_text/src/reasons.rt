//! What the reasons of rulings mean.

ghost use Rattle.std.specs.Prelude.{◌≡◌, IfOk, codes, map, take};
ghost use Rattle.serde_json.specs.Data.{Members, array, string};
ghost use Rattle.serde_json.specs.View.{view, items_of};
ghost use Rattle.json_fields.specs.Written.{HasItems, HasMembers};
ghost use Rattle.session_text.specs.Members.{put_if_there};
ghost use Rattle.session_text.specs.SessionData.{reasons_data};

use crate::members::notice_value;
use json_fields::{ArrayWriter, ObjectWriter};
use notices::NoticeText;
use serde_json::Value;
use std::alloc::{AllocError, Global};
use table_terms::Items;

/// Adds the texts of the reasons, where there are some.
pub(crate) fn with_reasons(
    alloc: Global,
    writer: ObjectWriter,
    reasons: &Items<NoticeText>,
) -> ObjectWriter
    ensures { (members : Members) → HasMembers writer members →
        HasMembers result (put_if_there (codes "reasons") (reasons_data reasons.now) members) }
{
    with_listed(alloc, writer, reasons.as_slice())
}

#[tactic(auto, using(crate::proofs::TextLemmas::reasons_none, crate::proofs::TextLemmas::reasons_some))]
fn with_listed(alloc: Global, writer: ObjectWriter, reasons: &[NoticeText]) -> ObjectWriter
    ensures { (members : Members) → HasMembers writer members →
        HasMembers result (put_if_there (codes "reasons") (reasons_data reasons.now) members) }
{
    if reasons.is_empty() {
        writer
    } else {
        writer.member("reasons", reasons_value(alloc, reasons))
    }
}

fn reasons_value(alloc: Global, reasons: &[NoticeText]) -> Result<Value, AllocError>
    ensures { IfOk result (λ value. view value ≡ array (items_of (map (λ bytes. string bytes) reasons.now))) }
{
    let mut items = ArrayWriter::new(alloc);
    for reason in reasons {
        items = items.item(notice_value(alloc, reason));
    }
    items.array()
}
