ghost use Rattle.std.specs.Prelude.{◌≡◌, IfOk};

use crate::notice_text::NoticeText;
use std::alloc::{AllocError, Global};
use table_terms::Items;

/// What a session tells its members of itself, from its opening on.
#[derive(Drop)]
pub struct Notices {
    /// What the session is called, where that is said.
    pub title: Option<NoticeText>,
    /// The day of the session, as `2026-11-27`, where that is said.
    pub date: Option<NoticeText>,
    /// What a ruling's reason means: of the number 1, 2, .. in this order.
    pub reasons: Items<NoticeText>,
}

impl Notices {
    /// How many bytes a title has at most.
    pub const MOST_TITLE: usize = 100;

    /// For how many reasons there can be a text.
    pub const MOST_REASONS: usize = 99;

    /// The same in memory of its own.
    pub fn copy(&self, alloc: Global) -> Result<Notices, AllocError>
        ensures { IfOk result (λ copy. copy ≡ self.now) }
    {
        let mut reasons = Vec::new(alloc);
        reasons.extend_from_slice(self.reasons.as_slice())?;
        Ok(Notices {
            title: self.title,
            date: self.date,
            reasons: Items::new(reasons),
        })
    }
}
