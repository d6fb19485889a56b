ghost use Rattle.std.specs.Prelude.{◌≡◌, true, false, IfSome, IfNone};
ghost use Rattle.query_filter.specs.Formula.{formula};
ghost use Rattle.query_filter.specs.Holds.{holds};
ghost use Rattle.query_filter.specs.Limits.{is_within_limits};

use crate::board_facts::BoardFacts;
use crate::condition::Condition;
use crate::holds::holds;
use crate::limits::is_within_limits;
use std::marker::Model;

/// A condition that isn't too large: at most 8 deep, with at most 32 atoms, and with 1 to 32 members in each list.
#[derive(Drop)]
pub struct Filter {
    condition: Condition,
}

impl Model for Filter {
    ghost use Rattle.std.specs.Prelude.{◌≡◌, true};
    ghost use Rattle.query_filter.specs.Formula.{Formula, formula};
    ghost use Rattle.query_filter.specs.FormulaCode.{formula_code};

    ghost Value = { Formula };

    ghost coded = { formula_code };

    ghost use Rattle.query_filter.specs.Limits.{is_within_limits};

    ghost view = { λ filter. formula filter.condition };

    ghost invariant = { λ filter. is_within_limits (formula filter.condition) ≡ true };
}

impl Filter {
    /// How deep a filter is at most.
    pub const MOST_DEPTH: u8 = 8;

    /// How many atoms a filter has at most.
    pub const MOST_ATOMS: u8 = 32;

    /// How many members a list in a filter has at most.
    pub const MOST_MEMBERS: usize = 32;

    /// The filter of a condition, if that isn't too large.
    pub fn new(condition: Condition) -> Option<Filter>
        ensures some { IfSome result (λ filter. filter ≡ formula condition) }
        ensures within { IfSome result (λ filter. is_within_limits filter ≡ true) }
        ensures none { IfNone result (is_within_limits (formula condition) ≡ false) }
    {
        if is_within_limits(&condition) {
            Some(Filter { condition })
        } else {
            None
        }
    }

    /// Whether the filter holds of a board, by what was handed in of it.
    pub fn holds(&self, facts: &BoardFacts) -> bool
        ensures { result ≡ holds self.now facts.now }
    {
        holds(&self.condition, facts)
    }
}
