//! The rule of the history, and what a step on it tells.

use logbook::{Gain, Plain, Play, Rule};
use session_commands::Entry;

/// The word is the number of publications.
pub struct CountRule;

impl Rule<[Entry; 0], u64> for CountRule {
    ghost use Rattle.std.specs.Prelude.{[]};
    ghost use base.Fml.{ftrue};
    ghost use Rattle.history.specs.Counting.{IsCounted};

    ghost holds = { λ cells log. IsCounted cells log };

    ghost first = { [] };

    ghost hinted = { λ n log. Unit {0} };

    ghost shows = { λ log. [] };

    ghost keeps = { λ names log. ftrue };

    ghost moves = { λ ask before after answer. Unit {0} };
}

/// Callers trade nothing.
pub struct NothingTraded;

impl Gain<[Entry; 0], u64> for NothingTraded {
    ghost use base.Fml.{ftrue};

    ghost after = { λ names about answer. ftrue };
}

/// A step that adds a publication.
pub struct Add;

impl Play<[Entry; 0], u64> for Add {
    ghost use Rattle.history.specs.Counting.{AddsPublication};

    ghost then = { AddsPublication };
}

/// What a step asks for: the entries of the publication.
impl Plain<Vec<Entry>, [Entry; 0], u64> for Add {
    ghost use Rattle.std.specs.Prelude.{None};

    ghost ask = { λ entries. entries.items };

    ghost state = { λ entries. None };
}
