//! The queries, each by its word.

ghost use Rattle.std.specs.Prelude.{◌≡◌, ◌++◌, codes, drop, take, Err, IsSomeAnd};
ghost use Rattle.serde_json.specs.View.{view};
ghost use Rattle.json_fields.specs.Form.{by_word, is_word_of};
ghost use Rattle.json_fields.specs.Reading.{wanted, Gives};
ghost use Rattle.json_fields.specs.declared.request_fault.RequestFault.TheVariants.{OutOfMemory};
ghost use Rattle.session_roles.specs.declared.edition.Edition.TheVariants.{First, Second};
ghost use Rattle.wire.specs.Query.{added_queries, asking, queries, query_called, IsFiltered};

use crate::list_reading::list_query;
use json_fields::{RequestFault, has_only, is_one_of, read_board, read_table};
use movement::Cell;
use serde_json::Value;
use session_queries::Query;
use session_roles::Edition;
use std::alloc::Global;

/// Whether a query of an edition is called so.
pub(crate) fn is_query_word(word: &str, edition: Edition) -> bool
    ensures { result ≡ is_word_of (queries edition) word.now }
{
    is_one_of(
        word,
        &[
            "status",
            "ranking",
            "accounts",
            "board",
            "traveller",
            "analysis",
            "play",
            "costs",
            "reason",
            "list",
        ],
    ) || is_added_word(word, edition)
}

// Whether a query is called so that the first edition doesn't have.
fn is_added_word(word: &str, edition: Edition) -> bool
    ensures { result ≡ is_word_of (added_queries edition) word.now }
{
    match edition {
        Edition::First => false,
        Edition::Second => is_one_of(word, &["par"]),
    }
}

fn status_query(value: &Value) -> Option<Query>
    ensures { result ≡ query_called First (codes "status") (view value.now) }
{
    if !has_only(value, &["ask", "as", "since"]) {
        return None;
    }
    Some(Query::Status)
}

fn ranking_query(value: &Value) -> Option<Query>
    ensures { result ≡ query_called First (codes "ranking") (view value.now) }
{
    if !has_only(value, &["ask", "as", "since"]) {
        return None;
    }
    Some(Query::Ranking)
}

fn accounts_query(value: &Value) -> Option<Query>
    ensures { result ≡ query_called First (codes "accounts") (view value.now) }
{
    if !has_only(value, &["ask", "as", "since"]) {
        return None;
    }
    Some(Query::Accounts)
}

fn board_query(value: &Value) -> Option<Query>
    ensures { result ≡ query_called First (codes "board") (view value.now) }
{
    if !has_only(value, &["ask", "as", "since", "board"]) {
        return None;
    }
    let board = read_board(value)?;
    Some(Query::Board(board))
}

fn traveller_query(value: &Value) -> Option<Query>
    ensures { result ≡ query_called First (codes "traveller") (view value.now) }
{
    if !has_only(value, &["ask", "as", "since", "board"]) {
        return None;
    }
    let board = read_board(value)?;
    Some(Query::Traveller(board))
}

fn analysis_query(value: &Value) -> Option<Query>
    ensures { result ≡ query_called First (codes "analysis") (view value.now) }
{
    if !has_only(value, &["ask", "as", "since", "board"]) {
        return None;
    }
    let board = read_board(value)?;
    Some(Query::Analysis(board))
}

fn play_query(value: &Value) -> Option<Query>
    ensures { result ≡ query_called First (codes "play") (view value.now) }
{
    if !has_only(value, &["ask", "as", "since", "table", "board"]) {
        return None;
    }
    let table = read_table(value)?;
    let board = read_board(value)?;
    Some(Query::Play(Cell { table, board }))
}

fn costs_query(value: &Value) -> Option<Query>
    ensures { result ≡ query_called First (codes "costs") (view value.now) }
{
    if !has_only(value, &["ask", "as", "since", "table", "board"]) {
        return None;
    }
    let table = read_table(value)?;
    let board = read_board(value)?;
    Some(Query::Costs(Cell { table, board }))
}

fn reason_query(value: &Value) -> Option<Query>
    ensures { result ≡ query_called First (codes "reason") (view value.now) }
{
    if !has_only(value, &["ask", "as", "since", "table", "board"]) {
        return None;
    }
    let table = read_table(value)?;
    let board = read_board(value)?;
    Some(Query::Reason(Cell { table, board }))
}

fn par_query(value: &Value) -> Option<Query>
    ensures { result ≡ query_called Second (codes "par") (view value.now) }
{
    if !has_only(value, &["ask", "as", "since", "board"]) {
        return None;
    }
    let board = read_board(value)?;
    Some(Query::Par(board))
}

/// The query of a word, of those that an edition has. Memory is refused only of a list by a filter, and only where each of its members is as it
/// should be.
pub(crate) fn query_called(
    alloc: Global,
    word: &str,
    value: &Value,
    edition: Edition,
) -> Result<Query, RequestFault>
    ensures query { Gives result (wanted (query_called edition word.now (view value.now))) }
    ensures memory { result ≡ Err OutOfMemory →
        IsSomeAnd (query_called edition word.now (view value.now)) IsFiltered }
{
    match word {
        "list" => list_query(alloc, value),
        _ => plain_query(word, value, edition).ok_or(RequestFault::BadField),
    }
}

// The queries beside the list, none of which takes memory.
fn plain_query(word: &str, value: &Value, edition: Edition) -> Option<Query>
    ensures { result ≡ by_word asking (take 9 (queries edition) ++ drop 10 (queries edition)) word.now
        (view value.now) }
{
    match word {
        "status" => status_query(value),
        "ranking" => ranking_query(value),
        "accounts" => accounts_query(value),
        "board" => board_query(value),
        "traveller" => traveller_query(value),
        _ => table_query(word, value, edition),
    }
}

// Those after the traveller.
fn table_query(word: &str, value: &Value, edition: Edition) -> Option<Query>
    ensures { result ≡ by_word asking (drop 5 (take 9 (queries edition)) ++ drop 10 (queries edition)) word.now
        (view value.now) }
{
    match word {
        "analysis" => analysis_query(value),
        "play" => play_query(value),
        "costs" => costs_query(value),
        "reason" => reason_query(value),
        _ => added_query(word, value, edition),
    }
}

// Then those that the first edition doesn't have.
fn added_query(word: &str, value: &Value, edition: Edition) -> Option<Query>
    ensures { result ≡ by_word asking (added_queries edition) word.now (view value.now) }
{
    match edition {
        Edition::First => None,
        Edition::Second => second_query(word, value),
    }
}

fn second_query(word: &str, value: &Value) -> Option<Query>
    ensures { result ≡ by_word asking (added_queries Second) word.now (view value.now) }
{
    match word {
        "par" => par_query(value),
        _ => None,
    }
}
