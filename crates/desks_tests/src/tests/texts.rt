//! The texts by which a desk and a display answer messages of a script.

ghost use Rattle.std.specs.Prelude.{◌≡◌, ◌≤◌, length};
ghost use Rattle.session_book.specs.Run.{most_commands};
ghost use Rattle.wire.specs.Request.{HasFew};

use desks::Desk;
use displays::{Display, Receipt, Server};
use entry_store::EntryStore;
use reply_texts::reply_text;
use session_book::Submission;
use session_commands::Command;
use session_keeper::SubmitFault;
use session_roles::Edition;
use std::alloc::Global;
use std::sync::Wait;
use user_names::Name;
use wire::{
    AuditRange, ScriptRequest, UserRequest, audit_refusal_text, audit_text, read_script_request,
    receipt_text,
};

/// A desk, and the display beside which it is asked.
#[derive(Drop)]
pub(super) struct Beside<'a, N: Server, K: EntryStore> {
    pub(super) desk: Desk<'a, N, K>,
    pub(super) display: Display<N>,
}

/// What is told of a batch or of an audit, and the receipt; if the message is one.
pub(super) type Told<N> = Option<(String, Receipt<N>)>;

/// What a desk answers a message.
pub(super) fn told<N: Server, K: EntryStore, R: Wait>(
    rt: &R,
    alloc: Global,
    beside: &mut Beside<'_, N, K>,
    message: &str,
) -> Told<N> {
    match read_script_request(alloc, message.as_bytes(), Edition::First) {
        Ok(said) => told_of(rt, alloc, beside, &said),
        Err(_) => None,
    }
}

fn told_of<N: Server, K: EntryStore, R: Wait>(
    rt: &R,
    alloc: Global,
    beside: &mut Beside<'_, N, K>,
    said: &ScriptRequest,
) -> Told<N>
    requires { HasFew said.now.request }
{
    match &said.request {
        UserRequest::Batch { commands } => {
            told_of_batch(rt, alloc, beside, said.user, commands.as_slice())
        }
        UserRequest::Audit { range } => told_of_audit(rt, alloc, beside, said.user, range),
        UserRequest::Query { .. } => None,
    }
}

fn told_of_batch<N: Server, K: EntryStore, R: Wait>(
    rt: &R,
    alloc: Global,
    beside: &mut Beside<'_, N, K>,
    user: Name,
    batch: &[Command],
) -> Told<N>
    requires { length batch.now ≤ most_commands }
{
    let Beside { desk, display } = beside;
    let Ok((answers, receipt)) = desk.submit(rt, display, user, batch) else {
        return None;
    };
    let submission = Submission {
        answers,
        first: receipt.first(),
        last: receipt.last(),
    };
    let Ok(text) = receipt_text(alloc, &submission, receipt.version()) else {
        return None;
    };
    Some((text, receipt))
}

/// Why a batch has no receipt, if it hasn't.
pub(super) fn fault<N: Server, K: EntryStore, R: Wait>(
    rt: &R,
    alloc: Global,
    beside: &mut Beside<'_, N, K>,
    message: &str,
) -> Option<SubmitFault> {
    let Ok(said) = read_script_request(alloc, message.as_bytes(), Edition::First) else {
        return None;
    };
    let UserRequest::Batch { commands } = &said.request else {
        return None;
    };
    let Beside { desk, display } = beside;
    desk.submit(rt, display, said.user, commands.as_slice())
        .err()
}

fn told_of_audit<N: Server, K: EntryStore, R: Wait>(
    rt: &R,
    alloc: Global,
    beside: &mut Beside<'_, N, K>,
    user: Name,
    range: &AuditRange,
) -> Told<N> {
    let Beside { desk, display } = beside;
    let (rows, receipt) = desk.audit(rt, display, user, range.from as usize, range.limit as usize);
    let text = match &rows {
        Ok(rows) => audit_text(alloc, rows, receipt.version()),
        Err(_) => audit_refusal_text(alloc),
    };
    match text {
        Ok(text) => Some((text, receipt)),
        Err(_) => None,
    }
}

/// What a display answers a query.
pub(super) fn shown<N: Server>(
    alloc: Global,
    display: &mut Display<N>,
    message: &str,
) -> Option<String> {
    let Ok(said) = read_script_request(alloc, message.as_bytes(), display.edition()) else {
        return None;
    };
    let UserRequest::Query { query, since } = &said.request else {
        return None;
    };
    match display.query(alloc, said.user, query, *since) {
        Ok(reply) => reply_text(alloc, &reply).ok(),
        Err(_) => None,
    }
}

/// Whether a display answers a query so.
pub(super) fn shows<N: Server>(
    alloc: Global,
    display: &mut Display<N>,
    message: &str,
    answer: &str,
) -> bool {
    match shown(alloc, display, message) {
        Some(text) => text.as_str() == answer,
        None => false,
    }
}

/// Whether a desk answers a message so.
pub(super) fn tells<N: Server, K: EntryStore, R: Wait>(
    rt: &R,
    alloc: Global,
    beside: &mut Beside<'_, N, K>,
    message: &str,
    answer: &str,
) -> bool {
    match told(rt, alloc, beside, message) {
        Some((text, _)) => text.as_str() == answer,
        None => false,
    }
}
