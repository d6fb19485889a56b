//! What may be missing, as every form writes it.
ghost use Rattle.std.specs.Prelude.{◌≡◌, IfOk};
ghost use Rattle.report_texts.specs.CsvText.{tricks_field};
ghost use Rattle.report_texts.specs.Terms.{text_or_empty};

use crate::players::copied_text;
use notices::NoticeText;
use query_filter::TrickTable;
use std::alloc::{AllocError, Global};
use table_terms::{Place, Strain};
use text_writer::bytes_of;

/// A double-dummy number, or nothing where the board isn't solved.
pub(crate) fn tricks_field(
    alloc: Global,
    tricks: &Option<TrickTable>,
    declarer: Place,
    strain: Strain,
) -> Result<Vec<u8>, AllocError>
    ensures { IfOk result (λ bytes. bytes.items ≡ tricks_field tricks.now declarer strain) }
{
    match tricks {
        Some(tricks) => bytes_of(tricks.tricks(strain, declarer).to_string(alloc)),
        None => Ok(Vec::new(alloc)),
    }
}

/// What a session tells of itself, or nothing.
pub fn notice_text(alloc: Global, notice: &Option<NoticeText>) -> Result<Vec<u8>, AllocError>
    ensures { IfOk result (λ bytes. bytes.items ≡ text_or_empty notice.now) }
{
    match notice {
        Some(notice) => copied_text(alloc, notice.as_str()),
        None => Ok(Vec::new(alloc)),
    }
}
