//! A user's request, answered over a keeper.

ghost use Rattle.std.specs.Prelude.{◌≡◌, ◌≤◌, ◌⊎◌, ℕ, List, Ok, IfOk, IfErr, IsErr, OnErr, length, string_bytes};
ghost use Rattle.session_book.specs.Journal.{IsAccepted};
ghost use Rattle.session_book.specs.Run.{most_commands};
ghost use Rattle.session_keeper.specs.Keeping.{GoesOn};
ghost use Rattle.wire.specs.Request.{HasFew};
ghost use Rattle.wire.specs.declared.request.UserRequest.TheVariants as wanting;
ghost use Rattle.request_answers.specs.Answering.{IsAnsweredOnce, IsUnanswered, IsTakenIn, IsRowsText, EntersItOnce, EntersNoneOrIt};
ghost use Rattle.request_answers.specs.declared.answer_fault.AnswerFault.TheVariants.{OutOfMemory};

use crate::answer_fault::AnswerFault;
use command_object::Commands;
use published_view::QueryFault;
use reply_texts::reply_text;
use session_book::AuditError;
use session_keeper::{AuditReceipt, CommandKeeper, Keeper, SubmitFault};
use session_queries::Query;
use std::alloc::{AllocError, Global};
use user_names::Name;
use wire::{AuditRange, UserRequest, audit_refusal_text, audit_text, receipt_text};

/// The text that answers a user's request. It waits only where the keeper does. Where memory is refused for the text of
/// a receipt, the commands that were accepted stand.
pub fn answer_request<H, K: CommandKeeper<H>>(
    rt: &H,
    alloc: Global,
    keeper: &mut K,
    user: Name,
    request: &UserRequest,
) -> Result<String, AnswerFault>
    requires { HasFew request.now }
    ensures later { GoesOn (K.opening keeper.old) (K.journal keeper.old) (K.opening keeper.new) (K.journal keeper.new) }
    ensures accepted { IsAccepted (K.opening keeper.new) (K.journal keeper.new) }
    ensures answered { IfOk result (λ text. IsAnsweredOnce K.others (K.opening keeper.new) (K.journal keeper.old)
        user request.now (string_bytes text) (K.journal keeper.new)) }
    ensures unanswered { IfErr result (λ fault. IsUnanswered K.others K.no_entry K.not_kept (K.opening keeper.new)
        (K.journal keeper.old) user request.now fault (K.journal keeper.new)) }
    ensures entered { IfOk result (λ text. EntersItOnce K.others (K.opening keeper.new) (K.own_entries keeper.old)
        (K.journal keeper.old) user request.now (string_bytes text)
        (K.own_entries keeper.new) (K.journal keeper.new)) }
    ensures none { IfErr result (λ fault. EntersNoneOrIt K.others (K.opening keeper.new) (K.own_entries keeper.old)
        (K.journal keeper.old) user request.now fault
        (K.own_entries keeper.new) (K.journal keeper.new)) }
{
    match request {
        UserRequest::Query { query, since } => answer_query(alloc, keeper, user, query, *since),
        UserRequest::Batch { commands } => answer_batch(rt, alloc, keeper, user, commands),
        UserRequest::Audit { range } => {
            or_out_of_memory(answer_audit(rt, alloc, keeper, user, *range))
        }
    }
}

/// The text of the reply to a user's query. It waits for nobody.
pub fn answer_query<K: Keeper>(
    alloc: Global,
    keeper: &mut K,
    user: Name,
    query: &Query,
    since: u64,
) -> Result<String, AnswerFault>
    ensures later { GoesOn (K.opening keeper.old) (K.journal keeper.old) (K.opening keeper.new) (K.journal keeper.new) }
    ensures accepted { IsAccepted (K.opening keeper.new) (K.journal keeper.new) }
    ensures answered { IfOk result (λ text. IsAnsweredOnce K.others (K.opening keeper.new) (K.journal keeper.old)
        user (wanting.Query query.now since) (string_bytes text) (K.journal keeper.new)) }
    ensures unanswered { IfErr result (λ fault. IsUnanswered K.others K.no_entry K.not_kept (K.opening keeper.new)
        (K.journal keeper.old) user (wanting.Query query.now since) fault (K.journal keeper.new)) }
    ensures entered { IfOk result (λ text. EntersItOnce K.others (K.opening keeper.new) (K.own_entries keeper.old)
        (K.journal keeper.old) user (wanting.Query query.now since) (string_bytes text)
        (K.own_entries keeper.new) (K.journal keeper.new)) }
    ensures none { IfErr result (λ fault. EntersNoneOrIt K.others (K.opening keeper.new) (K.own_entries keeper.old)
        (K.journal keeper.old) user (wanting.Query query.now since) fault
        (K.own_entries keeper.new) (K.journal keeper.new)) }
{
    match keeper.query(alloc, user, query, since) {
        Ok(reply) => or_out_of_memory(reply_text(alloc, &reply)),
        Err(QueryFault::NoEntry) => Err(AnswerFault::NoEntry),
        Err(QueryFault::OutOfMemory) => Err(AnswerFault::OutOfMemory),
    }
}

/// The text of the receipt for a user's commands, which are tried one after another. Where memory is refused for it, the
/// commands that were accepted stand.
pub fn answer_batch<H, K: CommandKeeper<H>>(
    rt: &H,
    alloc: Global,
    keeper: &mut K,
    user: Name,
    commands: &Commands,
) -> Result<String, AnswerFault>
    requires { length commands.now ≤ most_commands }
    ensures later { GoesOn (K.opening keeper.old) (K.journal keeper.old) (K.opening keeper.new) (K.journal keeper.new) }
    ensures accepted { IsAccepted (K.opening keeper.new) (K.journal keeper.new) }
    ensures answered { IfOk result (λ text. IsAnsweredOnce K.others (K.opening keeper.new) (K.journal keeper.old)
        user (wanting.Batch commands.now) (string_bytes text) (K.journal keeper.new)) }
    ensures unanswered { IfErr result (λ fault. IsUnanswered K.others K.no_entry K.not_kept (K.opening keeper.new)
        (K.journal keeper.old) user (wanting.Batch commands.now) fault (K.journal keeper.new)) }
    ensures entered { IfOk result (λ text. EntersItOnce K.others (K.opening keeper.new) (K.own_entries keeper.old)
        (K.journal keeper.old) user (wanting.Batch commands.now) (string_bytes text)
        (K.own_entries keeper.new) (K.journal keeper.new)) }
    ensures none { IfErr result (λ fault. EntersNoneOrIt K.others (K.opening keeper.new) (K.own_entries keeper.old)
        (K.journal keeper.old) user (wanting.Batch commands.now) fault
        (K.own_entries keeper.new) (K.journal keeper.new)) }
{
    match keeper.submit(rt, user, commands.as_slice()) {
        Ok(receipt) => or_out_of_memory(receipt_text(alloc, &receipt.submission, receipt.version)),
        Err(SubmitFault::NotKept) => Err(AnswerFault::NotKept),
        Err(SubmitFault::Unsure) => Err(AnswerFault::Unsure),
        Err(SubmitFault::OutOfMemory) => Err(AnswerFault::OutOfMemory),
    }
}

/// The text of an audit for a user.
pub fn answer_audit<H, K: CommandKeeper<H>>(
    rt: &H,
    alloc: Global,
    keeper: &mut K,
    user: Name,
    range: AuditRange,
) -> Result<String, AllocError>
    ensures later { GoesOn (K.opening keeper.old) (K.journal keeper.old) (K.opening keeper.new) (K.journal keeper.new) }
    ensures accepted { IsAccepted (K.opening keeper.new) (K.journal keeper.new) }
    ensures answered { IfOk result (λ text. IsAnsweredOnce K.others (K.opening keeper.new) (K.journal keeper.old)
        user (wanting.Audit range) (string_bytes text) (K.journal keeper.new)) }
    ensures unanswered { OnErr result (IsTakenIn K.others (K.opening keeper.new) (K.journal keeper.old)
        user (wanting.Audit range) (K.journal keeper.new)) }
    ensures entered { IfOk result (λ text. EntersItOnce K.others (K.opening keeper.new) (K.own_entries keeper.old)
        (K.journal keeper.old) user (wanting.Audit range) (string_bytes text)
        (K.own_entries keeper.new) (K.journal keeper.new)) }
    ensures none { OnErr result ((text : List ℕ) × EntersItOnce K.others (K.opening keeper.new)
        (K.own_entries keeper.old) (K.journal keeper.old) user (wanting.Audit range) text
        (K.own_entries keeper.new) (K.journal keeper.new)) }
    ensures own { K.own_entries keeper.new ≡ K.own_entries keeper.old }
{
    let receipt = keeper.audit(rt, user, range.from as usize, range.limit as usize);
    text_of_audit(alloc, &receipt)
}

// The text of an audit's receipt.
fn text_of_audit(alloc: Global, receipt: &AuditReceipt) -> Result<String, AllocError>
    ensures { IfOk result (λ text. IsRowsText receipt.now.rows receipt.now.version (string_bytes text)) }
{
    match &receipt.rows {
        Ok(rows) => audit_text(alloc, rows, receipt.version),
        Err(AuditError::NotPermitted) => audit_refusal_text(alloc),
        Err(AuditError::OutOfMemory) => Err(AllocError),
    }
}

// A text, or that there was no memory for it.
fn or_out_of_memory(text: Result<String, AllocError>) -> Result<String, AnswerFault>
    ensures ok { IfOk result (λ found. text ≡ Ok found) }
    ensures err { IfErr result (λ fault. (fault ≡ OutOfMemory) × IsErr text) }
{
    match text {
        Ok(text) => Ok(text),
        Err(_) => Err(AnswerFault::OutOfMemory),
    }
}
