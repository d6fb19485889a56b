//! A list of boards as a message asks for it.

ghost use Rattle.std.specs.Prelude.{◌≡◌, codes, Err, IsSome, IsSomeAnd};
ghost use Rattle.serde_json.specs.Find.{get};
ghost use Rattle.serde_json.specs.View.{view};
ghost use Rattle.json_fields.specs.Reading.{wanted, Gives};
ghost use Rattle.json_fields.specs.declared.request_fault.RequestFault.TheVariants.{OutOfMemory};
ghost use Rattle.session_roles.specs.declared.edition.Edition.TheVariants.{First};
ghost use Rattle.wire.specs.List.{filter, from, limit};
ghost use Rattle.wire.specs.Query.{query_called, IsFiltered};

use json_fields::{FilterFault, RequestFault, has_only, read_filter, small_number_at};
use query_filter::Filter;
use serde_json::Value;
use session_queries::Query;
use std::alloc::Global;

/// How many boards a list has at most, and where it names no limit.
const MOST_LISTED: u8 = 64;

fn from_of(value: &Value) -> Option<u8>
    ensures { result ≡ from.value (get from.name (view value.now)) }
{
    match value.get("from") {
        Some(_) => small_number_at(value, "from"),
        None => Some(1),
    }
}

fn limit_of(value: &Value) -> Option<u8>
    ensures { result ≡ limit.value (get limit.name (view value.now)) }
{
    if value.get("limit").is_none() {
        return Some(MOST_LISTED);
    }
    let limit = small_number_at(value, "limit")?;
    if 1 <= limit && limit <= MOST_LISTED {
        Some(limit)
    } else {
        None
    }
}

fn filter_of(alloc: Global, value: &Value) -> Result<Option<Filter>, RequestFault>
    ensures filter { Gives result (wanted (filter.value (get filter.name (view value.now)))) }
    ensures memory { result ≡ Err OutOfMemory →
        IsSomeAnd (filter.value (get filter.name (view value.now))) (λ asked. IsSome asked) }
{
    let Some(member) = value.get("filter") else {
        return Ok(None);
    };
    match read_filter(alloc, member) {
        Ok(filter) => Ok(Some(filter)),
        Err(FilterFault::BadField) => Err(RequestFault::BadField),
        Err(FilterFault::OutOfMemory) => Err(RequestFault::OutOfMemory),
    }
}

pub(crate) fn list_query(alloc: Global, value: &Value) -> Result<Query, RequestFault>
    ensures query { Gives result (wanted (query_called First (codes "list") (view value.now))) }
    ensures memory { result ≡ Err OutOfMemory → IsSomeAnd (query_called First (codes "list") (view value.now)) IsFiltered }
{
    if !has_only(value, &["ask", "as", "since", "filter", "from", "limit"]) {
        return Err(RequestFault::BadField);
    }
    // The filter comes last, since it alone takes memory.
    let Some(from) = from_of(value) else {
        return Err(RequestFault::BadField);
    };
    let Some(limit) = limit_of(value) else {
        return Err(RequestFault::BadField);
    };
    let filter = filter_of(alloc, value)?;
    Ok(Query::List {
        filter,
        from,
        limit,
    })
}
