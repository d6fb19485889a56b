//! Finding among the accounts.
ghost use Rattle.std.specs.Prelude.{◌≡◌, ◌≢◌, ◌<◌, length, All, find, IfSome, IfNone};
ghost use Rattle.std.specs.List.{HoldsAt, list_all, list_any};
ghost use Rattle.session_roles.specs.Separation.{separation_sets};
ghost use Rattle.session_roles.specs.Role.{has};
ghost use Rattle.rbac.specs.Account.{is_user_name, is_name_byte};
ghost use Rattle.rbac.specs.Hierarchy.{is_broken_in, reached_from};
ghost use Rattle.rbac.specs.Refusals.{are_roles_of};
ghost use Rattle.rbac.specs.Review.{assigned_without};

use crate::account::Account;
use crate::hierarchy::Hierarchy;
use session_roles::{Edition, Role, RoleSet, SeparationSet};
use user_names::Name;

/// Whether a byte is a letter, a digit, `-` or `_`.
fn is_name_byte(b: u8) -> bool
    ensures { result ≡ is_name_byte b }
{
    b.is_ascii_alphanumeric() || b == b'-' || b == b'_'
}

/// Whether all bytes are such.
fn are_name_bytes(bytes: &[u8]) -> bool
    ensures { result ≡ list_all is_name_byte bytes.now }
{
    bytes.iter().all(|b| is_name_byte(*b))
}

/// Whether a text may be the name of a user.
pub fn is_user_name(name: &str) -> bool
    ensures { result ≡ is_user_name name.now }
{
    1 <= name.len() && name.len() <= Name::MOST && are_name_bytes(name.as_bytes())
}

/// Whether an edition of the policy knows both roles of a pair.
pub fn are_roles_of(edition: Edition, senior: Role, junior: Role) -> bool
    ensures { result ≡ are_roles_of edition senior junior }
{
    senior.is_of(edition) && junior.is_of(edition)
}

/// Where the account of a user stands, if there is one.
pub fn place_of(accounts: &[Account], name: &str) -> Option<usize>
    ensures within { IfSome result (λ place. place < length accounts.now) }
    ensures found { IfSome result (HoldsAt (λ account. account.name ≡ name.now) accounts.now) }
    ensures none { IfNone result (All (λ account. account.name ≢ name.now) accounts.now) }
{
    for (place, account) in accounts.iter().enumerate() {
        if account.name.as_str() == name {
            return Some(place);
        }
    }
    None
}

/// Whether some account breaks a separation set.
fn is_broken(accounts: &[Account], hierarchy: &Hierarchy, set: SeparationSet) -> bool
    ensures { result ≡ is_broken_in hierarchy.now.reached accounts.now set }
{
    accounts.iter().any(|account| set.is_broken_by(hierarchy.reached_from(account.assigned)))
}

/// The first separation set that some account breaks.
pub fn first_broken(accounts: &[Account], hierarchy: &Hierarchy) -> Option<SeparationSet>
    ensures { result ≡ find (is_broken_in hierarchy.now.reached accounts.now) separation_sets }
{
    SeparationSet::ALL
        .iter()
        .copied()
        .find(|set| is_broken(accounts, hierarchy, *set))
}

/// Whether some account is authorized for a role.
pub fn has_user_for(accounts: &[Account], hierarchy: &Hierarchy, role: Role) -> bool
    ensures { result ≡
        list_any (λ account. has (reached_from hierarchy.now.reached account.assigned) role) accounts.now }
{
    accounts.iter().any(|account| hierarchy.reached_from(account.assigned).has(role))
}

/// Whether some account would be authorized for a role if another were not assigned to a user.
pub fn has_user_for_without(
    accounts: &[Account],
    hierarchy: &Hierarchy,
    role: Role,
    name: &str,
    taken: Role,
) -> bool
    ensures { result ≡ list_any (λ account.
        has (reached_from hierarchy.now.reached (assigned_without account name.now taken)) role) accounts.now }
{
    accounts.iter().any(|account| {
        hierarchy
            .reached_from(assigned_without(account, name, taken))
            .has(role)
    })
}

/// What is assigned to an account but for a role of the user of this name.
fn assigned_without(account: &Account, name: &str, taken: Role) -> RoleSet
    ensures { result ≡ assigned_without account.now name.now taken }
{
    if account.name.as_str() == name {
        return account.assigned.without(taken);
    }
    account.assigned
}
