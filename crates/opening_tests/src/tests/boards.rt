//! The boards of the sessions here.

use std::alloc::{AllocError, Global};

/// A deal in which each player has a suit.
const DEAL: &str = "N:AKQJT98765432... .AKQJT98765432.. ..AKQJT98765432. ...AKQJT98765432";

/// The boards' text of this many boards.
pub(super) fn deals(alloc: Global, boards: u8) -> Result<String, AllocError> {
    let mut text = String::new(alloc);
    for board in 0..boards {
        let number = u32::from(board) + 1;
        let deal = format!(in alloc; "[Board \"{number}\"]\n[Deal \"{DEAL}\"]\n\n")?;
        text.push_str(deal.as_str())?;
    }
    Ok(text)
}
