//! What is written of a batch that was tried.

ghost use Rattle.std.specs.Prelude.{◌≡◌, IfOk, string_bytes};
ghost use Rattle.serde_json.specs.Data.{array, string};
ghost use Rattle.serde_json.specs.View.{view};
ghost use Rattle.wire.specs.ReceiptText.{about, refusal_text, answer_data, answers_data, receipt_data, receipt_text};

use json_fields::{ObjectWriter, array_value};
use serde_json::{Value, push};
use session_book::{Answer, Submission};
use session_commands::Refusal;
use std::alloc::{AllocError, Global};

/// The text of the receipt for a batch after which the journal has this version.
pub fn receipt_text(
    alloc: Global,
    submission: &Submission,
    version: usize,
) -> Result<String, AllocError>
    ensures { IfOk result (λ text. string_bytes text
        ≡ receipt_text submission.now.answers.items submission.now.first submission.now.last version) }
{
    let receipt = receipt_value(alloc, submission, version)?;
    receipt.to_string(alloc)
}

fn receipt_value(
    alloc: Global,
    submission: &Submission,
    version: usize,
) -> Result<Value, AllocError>
    ensures { IfOk result (λ value. view value
        ≡ receipt_data submission.now.answers.items submission.now.first submission.now.last version) }
{
    ObjectWriter::new(alloc)
        .member(
            "answers",
            answers_value(alloc, submission.answers.as_slice()),
        )
        .member("first", Ok(Value::from(submission.first)))
        .member("last", Ok(Value::from(submission.last)))
        .member("version", Ok(Value::from(version)))
        .object()
}

fn answers_value(alloc: Global, answers: &[Answer]) -> Result<Value, AllocError>
    ensures { IfOk result (λ value. view value ≡ array (answers_data answers.now)) }
{
    let mut values = Vec::with_capacity(alloc, answers.len())?;
    for answer in answers {
        let value = answer_value(alloc, answer)?;
        push(&mut values, value)?;
    }
    Ok(array_value(values))
}

fn answer_value(alloc: Global, answer: &Answer) -> Result<Value, AllocError>
    ensures { IfOk result (λ value. view value ≡ answer_data answer.now) }
{
    match answer {
        Answer::Accepted => Value::try_from_str(alloc, "ok"),
        Answer::Refused(refusal) => refusal_value(alloc, refusal),
    }
}

fn refusal_value(alloc: Global, refusal: &Refusal) -> Result<Value, AllocError>
    ensures { IfOk result (λ value. view value ≡ string (refusal_text refusal.now)) }
{
    match refusal {
        Refusal::Spoiled(name) => about(alloc, "Spoiled", name.as_str()),
        Refusal::Separation(set) => about(alloc, "Separation", set.name()),
        refusal => Value::try_from_str(alloc, refusal.name()),
    }
}

// A name, and in brackets who or what it is about.
fn about(alloc: Global, name: &str, subject: &str) -> Result<Value, AllocError>
    ensures { IfOk result (λ value. view value ≡ string (about name.now subject.now)) }
{
    let text = format!(in alloc; "{name}({subject})")?;
    Ok(Value::String(text))
}
