ghost use Rattle.std.specs.Prelude.{◌≡◌, ◌+◌, ◌≤◌, OnOk, OnErr};

use std::marker::Model;

/// How many positions may still be visited.
#[derive(Drop)]
pub struct Budget {
    left: u64,
}

impl Model for Budget {
    ghost use Rattle.std.specs.Prelude.{ℕ};
    ghost use Rattle.std.specs.Coded.{coded_ℕ};

    ghost Value = { ℕ };

    ghost coded = { coded_ℕ };

    ghost view = { λ budget. budget.left };

    ghost inverse = { λ visits. record { left = visits } };
}

/// The budget is spent.
#[derive(Clone, Copy)]
pub(crate) struct BudgetSpent;

impl Budget {
    /// A budget of so many visits.
    pub fn new(visits: u64) -> Budget
        ensures { result ≡ visits }
    {
        Budget { left: visits }
    }

    /// How many visits are left.
    pub fn left(&self) -> u64
        ensures { result ≡ self.now }
    {
        self.left
    }

    /// Takes one visit off what is left.
    pub(crate) fn visit(&mut self) -> Result<(), BudgetSpent>
        ensures ok { OnOk result (self.new + 1 ≡ self.old) }
        ensures err { OnErr result (self.old ≡ 0) }
        ensures spent { self.new ≤ self.old }
    {
        if self.left == 0 {
            return Err(BudgetSpent);
        }
        self.left -= 1;
        Ok(())
    }
}
