//! The request for an audit, read from its members.

ghost use Rattle.std.specs.Prelude.{◌≡◌, ◌≤◌, [], IfOk};
ghost use Rattle.serde_json.specs.Find.{get};
ghost use Rattle.serde_json.specs.View.{view};
ghost use Rattle.wire.specs.Audit.{most_rows, counted, audit_range, audit_of};
ghost use Rattle.json_fields.specs.Form.{formed};
ghost use Rattle.json_fields.specs.Reading.{wanted};

use crate::audit_range::AuditRange;
use crate::request::{Request, RequestBody, UserRequest};
use crate::source::{Source, said_user};
use json_fields::{RequestFault, has_only, whole_at};
use serde_json::Value;

/// How many rows an audit has at most.
const MOST_ROWS: u64 = 1000;

// The number from 1 to a limit in the member of this name.
fn counted_at(value: &Value, name: &str, limit: u64) -> Result<u64, RequestFault>
    ensures number { result ≡ wanted ((counted name.now limit).value (get name.now (view value.now))) }
    ensures within { IfOk result (λ number. number ≤ limit) }
{
    match whole_at(value, name) {
        Some(number) if 1 <= number && number <= limit => Ok(number),
        _ => Err(RequestFault::BadField),
    }
}

// How many rows are asked for at most.
fn most_rows_of(value: &Value) -> Result<u16, RequestFault>
    ensures { result ≡ wanted (most_rows.value (get most_rows.name (view value.now))) }
{
    let number = counted_at(value, "limit", MOST_ROWS)?;
    Ok(number as u16)
}

// The rows that are asked for.
fn range_of(value: &Value) -> Result<AuditRange, RequestFault>
    ensures { result ≡ wanted (formed [] audit_range (view value.now)) }
{
    if !has_only(value, &["from", "limit"]) {
        return Err(RequestFault::BadField);
    }
    let from = counted_at(value, "from", u64::MAX)?;
    let limit = most_rows_of(value)?;
    Ok(AuditRange { from, limit })
}

/// The request for an audit, whose rows the member `audit` says.
#[tactic(auto, unfolding(crate::specs::Audit::audit_of))]
pub(crate) fn audit_of(rows: &Value, value: &Value, source: Source) -> Result<Request, RequestFault>
    ensures { result ≡ wanted (audit_of source (view rows.now) (view value.now)) }
{
    if !has_only(value, &["audit", "as"]) {
        return Err(RequestFault::BadField);
    }
    let user = said_user(value, source)?;
    let range = range_of(rows)?;
    let body = RequestBody::OfUser(UserRequest::Audit { range });
    Ok(Request { user, body })
}
