//! What a log hears of batches, and of what the workers find.

use event_log::{AnsweredCommand, BatchFault, Event, SharedLog};
use session_book::{Answer, Book};
use session_commands::{Command, CommandWord};
use session_keeper::{BatchReceipt, SubmitFault};
use session_roles::Operation;
use solver_pool::{Done, Found, Work};
use std::sync::Wait;
use std::time::{Clock, Duration};
use user_names::Name;

/// A log hears what became of a user's batch.
pub fn hear_batch<R: Wait + Clock>(
    rt: &R,
    log: &SharedLog,
    actor: Name,
    batch: &[Command],
    outcome: &Result<BatchReceipt, SubmitFault>,
) {
    match outcome {
        Ok(receipt) => hear_receipt(rt, log, actor, batch, receipt),
        Err(fault) => {
            let fault = fault_of(fault);
            log.hear(rt, &Event::Unanswered(actor, batch.len() as u64, fault));
        }
    }
}

// A log hears the words of a batch's commands, and the causes for which they were refused.
fn hear_receipt<R: Wait + Clock>(
    rt: &R,
    log: &SharedLog,
    actor: Name,
    batch: &[Command],
    receipt: &BatchReceipt,
) {
    let submission = &receipt.submission;
    let answers = submission.answers.as_slice();
    let count = answers.len().min(batch.len()).min(Book::MOST_COMMANDS);
    let mut told = [AnsweredCommand::Entered(CommandWord::Of(
        Operation::Enter,
    )); Book::MOST_COMMANDS];
    for place in 0..count {
        told[place] = answered(&batch[place], &answers[place]);
    }
    let (first, last) = (submission.first as u64, submission.last as u64);
    log.hear(rt, &Event::Answered(actor, first, last, &told[..count]));
}

// What became of a command.
fn answered(command: &Command, answer: &Answer) -> AnsweredCommand {
    match answer {
        Answer::Accepted => AnsweredCommand::Entered(command.word()),
        Answer::Refused(cause) => AnsweredCommand::Refused(command.word(), *cause),
    }
}

// Why a batch has no receipt, as a log has it.
fn fault_of(fault: &SubmitFault) -> BatchFault {
    match fault {
        SubmitFault::OutOfMemory => BatchFault::OutOfMemory,
        SubmitFault::NotKept => BatchFault::NotKept,
        SubmitFault::Unsure => BatchFault::Unsure,
    }
}

/// A log hears what was found of a job, and how long it took, where that is known.
pub fn hear_found<R: Wait + Clock>(rt: &R, log: &SharedLog, done: &Done, took: Option<Duration>) {
    let is_found = matches!(done.found(), Found::Table(_) | Found::Costs(_));
    let event = match done.job().work {
        Work::Table { board, .. } if is_found => Event::TableSolved(board, took),
        Work::Table { board, .. } => Event::NotFound(board, took),
        Work::Costs { cell, .. } if is_found => Event::CostsFound(cell.table, cell.board, took),
        Work::Costs { cell, .. } => Event::NotFound(cell.board, took),
    };
    log.hear(rt, &event);
}
