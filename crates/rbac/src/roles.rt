mod causes;
mod review;
mod unrefused;

ghost use Rattle.std.specs.Prelude.{◌≡◌, ◌<◌, ◌≤◌, ◌≢◌, vec_capacity, ◌↔◌, length, All, find, option_map, slice_get, Some, IsTrue, IfOk, IfErr, IfSome, IfNone, OnOk, OnErr, OnSome};
ghost use Rattle.std.specs.List.{list_any, HoldsAt};
ghost use Rattle.rbac.specs.declared.add_user_error.AddUserError.{AddUserError};
ghost use Rattle.rbac.specs.declared.assign_error.AssignError.{AssignError};
ghost use Rattle.rbac.specs.declared.deassign_error.DeassignError.{DeassignError};
ghost use Rattle.rbac.specs.declared.add_inheritance_error.AddInheritanceError.{AddInheritanceError};
ghost use Rattle.rbac.specs.declared.delete_inheritance_error.DeleteInheritanceError.{DeleteInheritanceError};
ghost use Rattle.rbac.specs.Account.{HasAccount};
ghost use Rattle.rbac.specs.Inheritance.{opening_pairs};
ghost use Rattle.rbac.specs.RoleData.{opening_data, add_user, assign_user, deassign_user, add_inheritance, delete_inheritance, after_change};
ghost use Rattle.rbac.specs.Authorization.{AreAuthorized, HasPermission, IsValid, authorized_roles, has_permission, reached};
ghost use Rattle.small_sets.specs.First.{IsFirst};
ghost use Rattle.rbac.specs.Refusals.{add_user_place, RefusesUser, assign_place, RefusesAssignment, deassign_place, RefusesDeassignment, inheritance_place, RefusesInheritance, deletion_place, RefusesDeletion};

use crate::account::Account;
use crate::add_inheritance_error::AddInheritanceError;
use crate::add_user_error::AddUserError;
use crate::assign_error::AssignError;
use crate::change::Change;
use crate::deassign_error::DeassignError;
use crate::delete_inheritance_error::DeleteInheritanceError;
use crate::hierarchy::Hierarchy;
use crate::inheritance::Inheritance;
use crate::lookup::place_of;
use session_roles::{Edition, Operation, Role, RoleSet};
use std::alloc::{AllocError, Global};
use std::marker::Model;
use user_names::Name;

/// The users of a session, the roles that are assigned to them, and the role hierarchy. Clauses see the accounts and
/// the inheritance pairs, each in the order of adding, and the edition of the policy, which says what roles there are. After `new` no call but `copy` takes memory, and a refusal changes
/// nothing.
///
/// A name is looked for among the accounts in turn, and what each role reaches is kept as a table of seven sets, of 16 bytes
/// each. So `authorized` costs one scan of the names and at most seven unions, `add_inheritance` those unions for each
/// account and separation set, and a deletion works the table out anew from the pairs.
#[derive(Drop)]
pub struct Roles {
    accounts: Vec<Account>,
    pairs: Vec<Inheritance>,
    hierarchy: Hierarchy,
    edition: Edition,
}

impl Model for Roles {
    ghost use Rattle.rbac.specs.RoleData.{RoleData};

    ghost Value = { RoleData };

    ghost use Rattle.rbac.specs.Kept.{data_of, AreKeptRoles};

    ghost view = { data_of };

    ghost invariant = { AreKeptRoles };
}

impl Roles {
    /// How many users there are at most.
    pub const MOST_USERS: usize = 256;

    /// How many ordered pairs of roles there are.
    const MOST_PAIRS: usize = Role::COUNT as usize * Role::COUNT as usize;

    /// No users, the inheritance pairs of a new session, and room for all users and pairs.
    pub fn new(alloc: Global, edition: Edition) -> Result<Roles, AllocError>
        ensures { IfOk result (λ roles. roles ≡ opening_data edition) }
    {
        let accounts = Vec::with_capacity(alloc, Roles::MOST_USERS)?;
        let mut pairs = Vec::with_capacity(alloc, Roles::MOST_PAIRS)?;
        pairs.extend_from_slice(Inheritance::opening(edition))?;
        Ok(Roles {
            accounts,
            pairs,
            hierarchy: Hierarchy::opening(edition),
            edition,
        })
    }

    /// A copy, with room for all users and pairs.
    pub fn copy(&self, alloc: Global) -> Result<Roles, AllocError>
        ensures { IfOk result (λ copy. copy ≡ self.now) }
    {
        let mut accounts = Vec::with_capacity(alloc, Roles::MOST_USERS)?;
        accounts.extend_from_slice(&self.accounts)?;
        let mut pairs = Vec::with_capacity(alloc, Roles::MOST_PAIRS)?;
        pairs.extend_from_slice(&self.pairs)?;
        Ok(Roles {
            accounts,
            pairs,
            hierarchy: self.hierarchy,
            edition: self.edition,
        })
    }

    /// Becomes a copy of other roles, in the room that it has.
    pub fn copy_from(&mut self, other: &Roles)
        ensures { self.new ≡ other.now }
    {
        refill(&mut self.accounts, &other.accounts);
        refill(&mut self.pairs, &other.pairs);
        self.hierarchy = other.hierarchy;
        self.edition = other.edition;
    }

    /// The edition of the policy.
    pub fn edition(&self) -> Edition
        ensures edition { result ≡ self.now.edition }
        ensures valid { IsValid self.now }
    {
        self.edition
    }

    /// The roles for which a user of a new session is authorized to whom these roles are assigned.
    pub fn authorized_at_opening(edition: Edition, assigned: RoleSet) -> RoleSet
        ensures { result ≡ reached (opening_pairs edition) assigned }
    {
        Hierarchy::opening(edition).reached_from(assigned)
    }

    /// AddUser of INCITS 359-2012: adds an account with no role.
    pub fn add_user(&mut self, name: &str) -> Result<(), AddUserError>
        ensures added { OnOk result (self.new ≡ add_user self.old name.now) }
        ensures ok { OnOk result ((cause : AddUserError) → ¬ RefusesUser self.old name.now cause) }
        ensures cause { IfErr result (IsFirst add_user_place (RefusesUser self.old name.now)) }
        ensures unchanged { OnErr result (self.new ≡ self.old) }
    {
        if let Some(cause) = self.user_cause(name) {
            return Err(cause);
        }
        let Ok(name) = Name::new(name) else {
            unreachable!();
        };
        self.add_user_unrefused(name);
        Ok(())
    }

    /// AssignUser of INCITS 359-2012: assigns a role to a user.
    pub fn assign(&mut self, name: &str, role: Role) -> Result<(), AssignError>
        ensures assigned { OnOk result (self.new ≡ assign_user self.old name.now role) }
        ensures ok { OnOk result ((cause : AssignError) → ¬ RefusesAssignment self.old name.now role cause) }
        ensures cause { IfErr result (IsFirst assign_place (RefusesAssignment self.old name.now role)) }
        ensures unchanged { OnErr result (self.new ≡ self.old) }
    {
        if let Some(cause) = self.assignment_cause(name, role) {
            return Err(cause);
        }
        self.assign_unrefused(name, role);
        Ok(())
    }

    /// DeassignUser of INCITS 359-2012: takes an assigned role away from a user.
    pub fn deassign(&mut self, name: &str, role: Role) -> Result<(), DeassignError>
        ensures deassigned { OnOk result (self.new ≡ deassign_user self.old name.now role) }
        ensures ok { OnOk result ((cause : DeassignError) → ¬ RefusesDeassignment self.old name.now role cause) }
        ensures cause { IfErr result (IsFirst deassign_place (RefusesDeassignment self.old name.now role)) }
        ensures unchanged { OnErr result (self.new ≡ self.old) }
    {
        if let Some(cause) = self.deassignment_cause(name, role) {
            return Err(cause);
        }
        self.deassign_unrefused(name, role);
        Ok(())
    }

    /// AddInheritance of INCITS 359-2012: lets the senior role inherit the junior one.
    pub fn add_inheritance(&mut self, senior: Role, junior: Role) -> Result<(), AddInheritanceError>
        ensures added { OnOk result (self.new ≡ add_inheritance self.old senior junior) }
        ensures ok { OnOk result ((cause : AddInheritanceError) → ¬ RefusesInheritance self.old senior junior cause) }
        ensures cause { IfErr result (IsFirst inheritance_place (RefusesInheritance self.old senior junior)) }
        ensures unchanged { OnErr result (self.new ≡ self.old) }
    {
        if let Some(cause) = self.inheritance_cause(senior, junior) {
            return Err(cause);
        }
        self.add_inheritance_unrefused(senior, junior);
        Ok(())
    }

    /// DeleteInheritance of INCITS 359-2012: deletes this pair alone, so the senior role may still inherit the
    /// junior one by others.
    pub fn delete_inheritance(
        &mut self,
        senior: Role,
        junior: Role,
    ) -> Result<(), DeleteInheritanceError>
        ensures deleted { OnOk result (self.new ≡ delete_inheritance self.old senior junior) }
        ensures ok { OnOk result ((cause : DeleteInheritanceError) → ¬ RefusesDeletion self.old senior junior cause) }
        ensures cause { IfErr result (IsFirst deletion_place (RefusesDeletion self.old senior junior)) }
        ensures unchanged { OnErr result (self.new ≡ self.old) }
    {
        if let Some(cause) = self.deletion_cause(senior, junior) {
            return Err(cause);
        }
        self.delete_inheritance_unrefused(senior, junior);
        Ok(())
    }

    /// AuthorizedRoles of INCITS 359-2012: the roles for which a user is authorized, if there is such a user.
    pub fn authorized(&self, name: &str) -> Option<RoleSet>
        ensures roles { result ≡ authorized_roles self.now name.now }
        ensures exact { IfSome result (AreAuthorized self.now name.now) }
        ensures some { OnSome result (HasAccount self.now.accounts name.now) }
        ensures none { IfNone result (¬ HasAccount self.now.accounts name.now) }
        ensures valid { IsValid self.now }
    {
        let place = place_of(&self.accounts, name)?;
        Some(self.hierarchy.reached_from(self.accounts[place].assigned))
    }

    /// CheckAccess of INCITS 359-2012: whether a user is authorized for a role that permits the operation, which the
    /// edition knows.
    pub fn check_access(&self, name: &str, operation: Operation) -> bool
        ensures permission { IsTrue result ↔ HasPermission self.now name.now operation }
        ensures test { result ≡ has_permission self.now name.now operation }
        ensures valid { IsValid self.now }
    {
        if !operation.is_of(self.edition) {
            return false;
        }
        match self.authorized(name) {
            Some(roles) => operation.is_permitted_by(roles),
            None => false,
        }
    }

    /// What `authorized` would answer after a change. A change that would be refused changes nothing.
    pub fn authorized_if(&self, name: &str, change: Change<'_>) -> Option<RoleSet>
        ensures roles { result ≡ authorized_roles (after_change self.now change.entry) name.now }
        ensures exact { IfSome result (AreAuthorized (after_change self.now change.entry) name.now) }
        ensures some { OnSome result (HasAccount self.now.accounts name.now) }
        ensures none { IfNone result (¬ HasAccount self.now.accounts name.now) }
    {
        match change {
            Change::Deassign(other, role) => self.authorized_without_role(name, other, role),
            Change::DeleteInheritance(senior, junior) => self.authorized_without_pair(
                name,
                Inheritance { senior, junior },
            ),
        }
    }

    /// What `authorized` would answer if a role were not assigned to a user.
    fn authorized_without_role(&self, name: &str, other: &str, role: Role) -> Option<RoleSet>
        ensures roles { result ≡ authorized_roles (deassign_user self.now other.now role) name.now }
        ensures valid { IsValid self.now }
    {
        let place = place_of(&self.accounts, name)?;
        let assigned = self.accounts[place].assigned;
        if other == name {
            return Some(self.hierarchy.reached_from(assigned.without(role)));
        }
        Some(self.hierarchy.reached_from(assigned))
    }

    /// What `authorized` would answer if an inheritance pair were not there.
    fn authorized_without_pair(&self, name: &str, pair: Inheritance) -> Option<RoleSet>
        ensures roles { result ≡ authorized_roles (delete_inheritance self.now pair.senior pair.junior) name.now }
        ensures valid { IsValid self.now }
    {
        let place = place_of(&self.accounts, name)?;
        let hierarchy = Hierarchy::of_all_but(&self.pairs, pair);
        Some(hierarchy.reached_from(self.accounts[place].assigned))
    }

    /// The accounts, in the order of adding.
    pub fn accounts(&self) -> &[Account]
        ensures accounts { result.now ≡ self.now.accounts }
        ensures valid { IsValid self.now }
    {
        &self.accounts
    }

    /// The user at a place from 0 and the roles that are assigned to it, if there are so many users.
    pub fn user(&self, place: usize) -> Option<(Name, RoleSet)>
        ensures user { result ≡
            option_map (λ account. (account.name, account.assigned)) (slice_get self.now.accounts place) }
        ensures valid { IsValid self.now }
    {
        let account = self.accounts.get(place)?;
        Some((account.name, account.assigned))
    }

    /// The senior and the junior role of the inheritance pair at a place from 0, if there are so many pairs.
    pub fn pair(&self, place: usize) -> Option<(Role, Role)>
        ensures pair { result ≡ option_map (λ pair. (pair.senior, pair.junior)) (slice_get self.now.pairs place) }
        ensures valid { IsValid self.now }
    {
        let pair = self.pairs.get(place)?;
        Some((pair.senior, pair.junior))
    }
}

// Puts copies of other items in place of all items, in the room that is there.
fn refill<T: Copy + Drop>(items: &mut Vec<T>, others: &[T])
    requires { length others.now ≤ vec_capacity items.old }
    ensures items { items.new.items ≡ others.now }
    ensures room { vec_capacity items.old ≤ vec_capacity items.new }
{
    items.clear();
    let Ok(()) = items.extend_from_slice(others) else {
        unreachable!();
    };
}
