//! The object of a session, and its text.

ghost use Rattle.std.specs.Prelude.{◌≡◌, ℕ, List, [], Some, IfOk, string_bytes, codes, option_map};
ghost use Rattle.serde_json.specs.Data.{Members, no_members, put};
ghost use Rattle.serde_json.specs.Read.{read};
ghost use Rattle.serde_json.specs.View.{view};
ghost use Rattle.session_roles.specs.Edition.{edition_number};
ghost use Rattle.json_fields.specs.Written.{HasMembers};
ghost use Rattle.session_text.specs.AskedSession.{session_asked};
ghost use Rattle.session_text.specs.Members.{put_if_there};
ghost use Rattle.session_text.specs.SessionData.{whole_data, pair_data, asked_movement_data, reasons_data, text_data, session_data, text_of_session};

use crate::asked_session::AskedSession;
use crate::members::{with_notice, with_number, with_pair};
use crate::movement_members::with_movement;
use crate::reasons::with_reasons;
use crate::user::users_value;
use json_fields::ObjectWriter;
use serde_json::Value;
use session_roles::Edition;
use std::alloc::{AllocError, Global};

/// The text of a session's object, which names no boards: they are given beside it.
pub fn session_text(alloc: Global, asked: &AskedSession) -> Result<String, AllocError>
    ensures text { IfOk result (λ text. (boards : List ℕ) →
        string_bytes text ≡ text_of_session (session_asked asked.now boards)) }
    ensures json { IfOk result (λ text. (boards : List ℕ) →
        read (string_bytes text) ≡ Some (session_data (session_asked asked.now boards))) }
{
    let value = session_value(alloc, asked)?;
    value.to_string(alloc)
}

fn session_value(alloc: Global, asked: &AskedSession) -> Result<Value, AllocError>
    ensures { IfOk result (λ value. view value ≡ session_data (session_asked asked.now [])) }
{
    with_last_members(
        alloc,
        with_rounds(alloc, first_members(alloc, asked), asked),
        asked,
    )
    .member("users", users_value(alloc, &asked.users))
    .object()
}

// The pair that is absent, the budget, the day and the edition.
fn first_members(alloc: Global, asked: &AskedSession) -> ObjectWriter
    ensures { HasMembers result (put (codes "edition") (whole_data (edition_number asked.now.edition))
        (put_if_there (codes "date") (text_data asked.now.notices.date)
        (put (codes "budget") (whole_data asked.now.budget)
        (put_if_there (codes "absent") (option_map pair_data asked.now.absent) no_members)))) }
{
    with_edition(
        with_notice(
            alloc,
            with_pair(alloc, ObjectWriter::new(alloc), "absent", asked.absent).member(
                "budget",
                Ok(Value::from(asked.budget)),
            ),
            "date",
            asked.notices.date,
        ),
        asked.edition,
    )
}

fn with_edition(writer: ObjectWriter, edition: Edition) -> ObjectWriter
    ensures { (members : Members) → HasMembers writer members →
        HasMembers result (put (codes "edition") (whole_data (edition_number edition)) members) }
{
    writer.number("edition", edition.number())
}

// Adds the movement, the sets' boards, the reasons and the rounds.
fn with_rounds(alloc: Global, writer: ObjectWriter, asked: &AskedSession) -> ObjectWriter
    ensures { (members : Members) → HasMembers writer members →
        HasMembers result (put (codes "rounds") (whole_data asked.now.rounds)
        (put_if_there (codes "reasons") (reasons_data asked.now.notices.reasons)
        (put (codes "per_set") (whole_data asked.now.per_set)
        (put_if_there (codes "movement") (asked_movement_data asked.now.movement) members)))) }
{
    with_reasons(
        alloc,
        with_movement(alloc, writer, &asked.movement).number("per_set", asked.per_set),
        &asked.notices.reasons,
    )
    .number("rounds", asked.rounds)
}

// Adds how sets are shared, which rounds are switched, the tables and the title.
fn with_last_members(alloc: Global, writer: ObjectWriter, asked: &AskedSession) -> ObjectWriter
    ensures { (members : Members) → HasMembers writer members →
        HasMembers result (put_if_there (codes "title") (text_data asked.now.notices.title)
        (put (codes "tables") (whole_data asked.now.tables)
        (put_if_there (codes "switched") (option_map whole_data asked.now.switched)
        (put_if_there (codes "shared_by") (option_map whole_data asked.now.shared_by) members)))) }
{
    with_notice(
        alloc,
        with_number(
            with_number(writer, "shared_by", asked.shared_by),
            "switched",
            asked.switched,
        )
        .number("tables", asked.tables),
        "title",
        asked.notices.title,
    )
}
