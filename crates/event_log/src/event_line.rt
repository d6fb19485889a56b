//! The line of an event.

ghost use Rattle.std.specs.Prelude.{◌≡◌, ◌++◌, IfOk, OnOk, codes, string_bytes};
ghost use Rattle.std.specs.Fmt.{decimal};
ghost use Rattle.std.specs.List.{flat_map};
ghost use Rattle.event_log.specs.Lines.{IsLogLine, with_event, guest_text, answered_text, millis, took_text};
ghost use Rattle.event_log.specs.Moment.{IsMoment};
ghost use Rattle.event_log.specs.Plain.{plain};

use crate::event::{AnsweredCommand, Event, Guest};
use crate::moment::{date_of, time_text};
use crate::plain_text::plain;
use crate::words::{batch_fault_word, client_end_word};
use std::alloc::{AllocError, Global};
use std::time::Duration;

/// The line of an event, with its LF. The time is so many seconds after 1970 began, where the clock could be read.
pub fn log_line(alloc: Global, at: Option<u64>, event: &Event<'_>) -> Result<Vec<u8>, AllocError>
    ensures { IfOk result (λ line. IsLogLine at event.now line.items) }
{
    let mut line = moment(alloc, at)?;
    line.extend_from_slice(b" ")?;
    add_event(alloc, &mut line, event)?;
    line.extend_from_slice(b"\n")?;
    Ok(line)
}

// What stands in front of a line.
fn moment(alloc: Global, at: Option<u64>) -> Result<Vec<u8>, AllocError>
    ensures { IfOk result (λ text. IsMoment at text.items) }
{
    match at {
        Some(seconds) => match date_of(seconds) {
            Some(date) => time_text(alloc, date, seconds),
            None => Vec::from_slice(alloc, b"-"),
        },
        None => Vec::from_slice(alloc, b"-"),
    }
}

// Adds what is told of an event.
fn add_event(alloc: Global, line: &mut Vec<u8>, event: &Event<'_>) -> Result<(), AllocError>
    ensures { OnOk result (line.new.items ≡ with_event line.old.items event.now) }
{
    match event {
        Event::SignedIn(user) => add_name(alloc, line, "signed_in ", user.as_str()),
        Event::NotSignedIn(guest) => add_guest(alloc, line, "not_signed_in ", guest),
        Event::Answered(user, first, last, answers) => {
            add_name(alloc, line, "batch ", user.as_str())?;
            let numbers = format!(in alloc; " first={first} last={last}")?;
            line.extend_from_slice(numbers.as_bytes())?;
            add_answers(alloc, line, answers)
        }
        Event::Unanswered(user, count, fault) => {
            add_name(alloc, line, "batch_undone ", user.as_str())?;
            let word = batch_fault_word(*fault);
            let rest = format!(in alloc; " commands={count} why={word}")?;
            line.extend_from_slice(rest.as_bytes())
        }
        Event::Ended(guest, why, after) => {
            add_guest(alloc, line, "ended ", guest)?;
            let (word, millis) = (client_end_word(*why), after.as_millis());
            let rest = format!(in alloc; " why={word} ms={millis}")?;
            line.extend_from_slice(rest.as_bytes())
        }
        Event::TableSolved(board, took) => add_solved(alloc, line, *board, took),
        Event::CostsFound(table, board, took) => add_costs(alloc, line, *table, *board, took),
        Event::NotFound(board, took) => add_not_found(alloc, line, *board, took),
    }
}

// Adds what is told of a board's table.
fn add_solved(
    alloc: Global,
    line: &mut Vec<u8>,
    board: u8,
    took: &Option<Duration>,
) -> Result<(), AllocError>
    ensures { OnOk result (line.new.items ≡
        line.old.items ++ (codes "table_solved board=" ++ (decimal board ++ (codes " ms=" ++ took_text took.now)))) }
{
    let took = took_text(alloc, took)?;
    let told = format!(in alloc; "table_solved board={board} ms={took}")?;
    line.extend_from_slice(told.as_bytes())
}

// Adds what is told of the costs of a play.
fn add_costs(
    alloc: Global,
    line: &mut Vec<u8>,
    table: u8,
    board: u8,
    took: &Option<Duration>,
) -> Result<(), AllocError>
    ensures { OnOk result (line.new.items ≡ line.old.items ++ (codes "costs_found table=" ++ (decimal table
        ++ (codes " board=" ++ (decimal board ++ (codes " ms=" ++ took_text took.now)))))) }
{
    let took = took_text(alloc, took)?;
    let told = format!(in alloc; "costs_found table={table} board={board} ms={took}")?;
    line.extend_from_slice(told.as_bytes())
}

// Adds what is told of a board of which nothing was found.
fn add_not_found(
    alloc: Global,
    line: &mut Vec<u8>,
    board: u8,
    took: &Option<Duration>,
) -> Result<(), AllocError>
    ensures { OnOk result (line.new.items ≡
        line.old.items ++ (codes "not_found board=" ++ (decimal board ++ (codes " ms=" ++ took_text took.now)))) }
{
    let took = took_text(alloc, took)?;
    let told = format!(in alloc; "not_found board={board} ms={took}")?;
    line.extend_from_slice(told.as_bytes())
}

// How many milliseconds something took.
fn took_text(alloc: Global, took: &Option<Duration>) -> Result<String, AllocError>
    ensures { IfOk result (λ text. string_bytes text ≡ took_text took.now) }
{
    match took {
        Some(took) => {
            let millis = took.as_millis();
            format!(in alloc; "{millis}")
        }
        None => String::from_str(alloc, "-"),
    }
}

// Adds a word, and who is on a connection.
fn add_guest(alloc: Global, line: &mut Vec<u8>, word: &str, guest: &Guest) -> Result<(), AllocError>
    ensures { OnOk result (line.new.items ≡ line.old.items ++ word.now ++ guest_text guest.now) }
{
    match guest {
        Guest::User(name) => add_name(alloc, line, word, name.as_str()),
        Guest::Nobody => {
            line.extend_from_slice(word.as_bytes())?;
            line.extend_from_slice(b"-")
        }
    }
}

// Adds a word, and a name.
fn add_name(alloc: Global, line: &mut Vec<u8>, word: &str, name: &str) -> Result<(), AllocError>
    ensures { OnOk result (line.new.items ≡ line.old.items ++ word.now ++ plain name.now) }
{
    let name = plain(alloc, name.as_bytes())?;
    line.extend_from_slice(word.as_bytes())?;
    line.extend_from_slice(name.as_slice())
}

// Adds what became of each command.
fn add_answers(
    alloc: Global,
    line: &mut Vec<u8>,
    answers: &[AnsweredCommand],
) -> Result<(), AllocError>
    ensures { OnOk result (line.new.items ≡ line.old.items ++ flat_map answered_text answers.now) }
{
    for answer in answers {
        let text = answered_text(alloc, answer)?;
        line.extend_from_slice(text.as_bytes())?;
    }
    Ok(())
}

// What became of a command.
fn answered_text(alloc: Global, answer: &AnsweredCommand) -> Result<String, AllocError>
    ensures { IfOk result (λ text. string_bytes text ≡ answered_text answer.now) }
{
    match answer {
        AnsweredCommand::Entered(word) => {
            let word = word.text();
            format!(in alloc; " {word}=ok")
        }
        AnsweredCommand::Refused(word, cause) => {
            let (word, cause) = (word.text(), cause.name());
            format!(in alloc; " {word}={cause}")
        }
    }
}
