//! How large a condition is.

ghost use Rattle.std.specs.Prelude.{◌≡◌, if◌then◌else◌, None};
ghost use Rattle.query_filter.specs.Formula.{formula, formulas};
ghost use Rattle.query_filter.specs.Limits.{is_list_within, is_within_limits, left_after, left_after_all};

use crate::condition::Condition;
use crate::filter::Filter;

pub(crate) fn is_within_limits(condition: &Condition) -> bool
    ensures { result ≡ is_within_limits (formula condition.now) }
{
    atoms_left(condition, Filter::MOST_DEPTH, Filter::MOST_ATOMS).is_some()
}

// How many atoms may still follow a condition. It is looked at no deeper than it may go.
#[cycle(limits)]
fn atoms_left(condition: &Condition, depth: u8, atoms: u8) -> Option<u8>
    ensures { result ≡ left_after depth atoms (formula condition.now) }
{
    if depth == 0 {
        return None;
    }
    match condition {
        Condition::Atom(_) => atoms.checked_sub(1),
        Condition::Not(other) => atoms_left(other, depth - 1, atoms),
        Condition::And(members) | Condition::Or(members) => {
            atoms_left_of_list(members, depth - 1, atoms)
        }
    }
}

#[cycle(limits)]
#[tactic(auto, using(crate::proofs::LimitLemmas::member_count_formulas))]
fn atoms_left_of_list(members: &[Condition], depth: u8, atoms: u8) -> Option<u8>
    ensures { result ≡ (if is_list_within (formulas members.now)
        then left_after_all depth atoms (formulas members.now) else None) }
{
    if members.is_empty() || members.len() > Filter::MOST_MEMBERS {
        return None;
    }
    atoms_left_of_all(members, depth, atoms)
}

#[cycle(limits)]
#[tactic(auto, using(crate::proofs::LimitLemmas::left_after_first))]
fn atoms_left_of_all(members: &[Condition], depth: u8, atoms: u8) -> Option<u8>
    ensures { result ≡ left_after_all depth atoms (formulas members.now) }
{
    let mut left = atoms;
    for member in members {
        left = atoms_left(member, depth, left)?;
    }
    Some(left)
}
