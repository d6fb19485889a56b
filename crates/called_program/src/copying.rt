//! A copy of a journal.

ghost use Rattle.std.specs.Prelude.{◌≡◌, ◌≢◌, []};
ghost use Rattle.std.specs.Io.KnownBytes.{Appends};
ghost use Rattle.program.specs.Status.{IsStatus};
ghost use Rattle.operator_lines.specs.Obstacles.{ToldWhy};

use crate::serving_fault::status_of_source_fault;
use journal_store::JournalFiles;
use kept_sessions::copy_journal;
use server_words::JournalCopy;
use sqlite::Wary;
use std::io::Write;
use std::rt::Files;

/// Copies a journal to a path where nothing is yet, and answers the status.
pub(crate) fn status_of_copy<R: Files + JournalFiles + AllocGlobal, E: Write>(
    rt: &R,
    copy: &JournalCopy<'_>,
    errors: &mut E,
) -> u8
    ensures statuses { IsStatus result }
    ensures understood { result ≢ 2 }
    ensures silent { result ≡ 0 → Appends (E.contents errors.old) (E.contents errors.new) [] }
    ensures memory { result ≡ 4 → ToldWhy result (E.contents errors.old) (E.contents errors.new) }
{
    match copy_journal(rt, copy.journal, Wary, copy.to) {
        Ok(()) => 0,
        Err((fault, _left)) => status_of_source_fault(rt.alloc(), fault, None, errors),
    }
}
