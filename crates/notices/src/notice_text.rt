ghost use Rattle.std.specs.Prelude.{◌≡◌, ◌<◌, ◌≤◌, length, IfSome, IfNone};
ghost use Rattle.notices.specs.declared.notice_text.TheConstants.NoticeText.{MOST};

use std::marker::Model;
use std::str;

/// A text to show of at most 200 bytes, which lies in the value itself.
#[derive(Clone, Copy)]
pub struct NoticeText {
    bytes: [u8; NoticeText::MOST],
    len: u8,
}

impl Model for NoticeText {
    ghost use Rattle.std.specs.Prelude.{List, ℕ};

    ghost Value = { List ℕ };

    ghost use Rattle.notices.specs.NoticeText.{IsTextInPlaces, notice_text_of, fields_of, fields_of-notice_text_of};

    ghost view = { notice_text_of };

    ghost invariant = { IsTextInPlaces };

    ghost inverse = { fields_of };

    ghost inverse_ok = { fields_of-notice_text_of };
}

impl NoticeText {
    /// How many bytes a notice has at most.
    pub const MOST: usize = 200;

    /// The notice that is this text, if it isn't too long.
    pub fn new(text: &str) -> Option<NoticeText>
        ensures notice { IfSome result (λ notice. notice ≡ text.now) }
        ensures short { IfSome result (λ notice. length text.now ≤ MOST) }
        ensures none { IfNone result (MOST < length text.now) }
    {
        let len = text.len();
        if len > NoticeText::MOST {
            return None;
        }
        let mut bytes = [0; NoticeText::MOST];
        bytes[..len].copy_from_slice(text.as_bytes());
        Some(NoticeText {
            bytes,
            len: len as u8,
        })
    }

    /// The text.
    pub fn as_str(&self) -> &str
        ensures text { result.now ≡ self.now }
        ensures short { length result.now ≤ MOST }
    {
        match str::from_utf8(&self.bytes[..self.len as usize]) {
            Ok(text) => text,
            Err(_) => unreachable!(),
        }
    }
}
