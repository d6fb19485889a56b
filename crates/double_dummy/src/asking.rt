ghost use Rattle.std.specs.Prelude.{◌≡◌, ◌≤◌, IfOk, OnErr};
ghost use Rattle.cards.specs.Play.{IsPosition};
ghost use Rattle.position_patterns.specs.Remainder.{IsLeftOf};
ghost use Rattle.cards.specs.DoubleDummy.{double_dummy};

use crate::budget::{Budget, BudgetSpent};
use crate::run;
use crate::search::search;
use cards::Position;
use position_patterns::{DealPatterns, Memory};

/// How many of the tricks that are left North and South take. The search asks first whether they take as many as the
/// guess, and goes up or down from there.
pub fn value(
    position: &Position,
    guess: u8,
    patterns: &DealPatterns,
    memory: &mut Memory,
    budget: &mut Budget,
) -> Result<u8, BudgetSpent>
    requires dealt { IsLeftOf patterns.now.whole position.now.hands }
    ensures valid { IsPosition position.now }
    ensures tricks { IfOk result (λ tricks. tricks ≡ double_dummy position.now) }
    ensures err { OnErr result (budget.new ≡ 0) }
    ensures spent { budget.new ≤ budget.old }
{
    let live = run::live(position);
    let mut low = 0;
    let mut high = position.tricks_left();
    while low < high {
        let asked = guess.max(low + 1).min(high);
        let Ok(found) = search(position, live, asked, patterns, memory, budget) else {
            return Err(BudgetSpent);
        };
        if found.holds {
            low = asked;
        } else {
            high = asked - 1;
        }
    }
    Ok(low)
}
