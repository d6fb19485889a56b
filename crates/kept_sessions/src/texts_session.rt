//! The session that texts open.

ghost use Rattle.std.specs.Prelude.{◌≡◌, false, IfOk, IfErr};
ghost use Rattle.kept_sessions.specs.Sources.{IsSessionOf, WhyNoSession, is_of_a_journal};

use crate::source_fault::KeptSessionFault;
use opened_session::{OpenedSession, open_session};
use std::alloc::Global;

/// The session that a session object opens with the boards that are given beside it, or the first cause why it opens none.
pub fn session_of_texts(
    alloc: Global,
    object: &[u8],
    boards: &[u8],
) -> Result<OpenedSession, KeptSessionFault>
    ensures session { IfOk result (λ session.
        IsSessionOf object.now boards.now session.book.opening session.book.journal session.budget) }
    ensures fault { IfErr result (λ fault. is_of_a_journal fault ≡ false) }
    ensures why { IfErr result (WhyNoSession object.now boards.now) }
{
    match open_session(alloc, object, Some(boards)) {
        Ok(opened) => Ok(opened),
        Err(fault) if fault.is_out_of_memory() => Err(KeptSessionFault::OutOfMemory),
        Err(fault) => Err(KeptSessionFault::Unopened(fault)),
    }
}
