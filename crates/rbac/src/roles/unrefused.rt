//! The changes of INCITS 359-2012 for a caller who knows that nothing refuses them. Each stands beside the call of `Roles`
//! that tests, which makes its change by it, and there is nothing that it could answer.
ghost use Rattle.std.specs.Prelude.{◌≡◌};
ghost use Rattle.rbac.specs.RoleData.{add_user, assign_user, deassign_user, add_inheritance, delete_inheritance};
ghost use Rattle.rbac.specs.Refusals.{RefusesUser, RefusesAssignment, RefusesDeassignment, RefusesInheritance, RefusesDeletion};
ghost use Rattle.rbac.specs.declared.add_user_error.AddUserError.{AddUserError};
ghost use Rattle.rbac.specs.declared.assign_error.AssignError.{AssignError};
ghost use Rattle.rbac.specs.declared.deassign_error.DeassignError.{DeassignError};
ghost use Rattle.rbac.specs.declared.add_inheritance_error.AddInheritanceError.{AddInheritanceError};
ghost use Rattle.rbac.specs.declared.delete_inheritance_error.DeleteInheritanceError.{DeleteInheritanceError};

use crate::account::Account;
use crate::hierarchy::Hierarchy;
use crate::inheritance::Inheritance;
use crate::lookup::place_of;
use crate::roles::Roles;
use session_roles::{Role, RoleSet};
use user_names::Name;

impl Roles {
    /// `add_user` where nothing refuses the name.
    pub fn add_user_unrefused(&mut self, name: Name)
        requires { (cause : AddUserError) → ¬ RefusesUser self.old name cause }
        ensures { self.new ≡ add_user self.old name }
    {
        self.accounts.push_reserved(Account {
            name,
            assigned: RoleSet::new(),
        });
    }

    /// `assign` where nothing refuses the assignment.
    pub fn assign_unrefused(&mut self, name: &str, role: Role)
        requires { (cause : AssignError) → ¬ RefusesAssignment self.old name.now role cause }
        ensures { self.new ≡ assign_user self.old name.now role }
    {
        if let Some(place) = place_of(&self.accounts, name) {
            let more = self.accounts[place].assigned.with(role);
            self.accounts[place].assigned = more;
        }
    }

    /// `deassign` where nothing refuses it.
    pub(crate) fn deassign_unrefused(&mut self, name: &str, role: Role)
        requires { (cause : DeassignError) → ¬ RefusesDeassignment self.old name.now role cause }
        ensures { self.new ≡ deassign_user self.old name.now role }
    {
        if let Some(place) = place_of(&self.accounts, name) {
            let fewer = self.accounts[place].assigned.without(role);
            self.accounts[place].assigned = fewer;
        }
    }

    /// `add_inheritance` where nothing refuses the pair.
    pub(crate) fn add_inheritance_unrefused(&mut self, senior: Role, junior: Role)
        requires { (cause : AddInheritanceError) → ¬ RefusesInheritance self.old senior junior cause }
        ensures { self.new ≡ add_inheritance self.old senior junior }
    {
        let pair = Inheritance { senior, junior };
        self.hierarchy = self.hierarchy.with(pair);
        self.pairs.push_reserved(pair);
    }

    /// `delete_inheritance` where the pair is there.
    pub(crate) fn delete_inheritance_unrefused(&mut self, senior: Role, junior: Role)
        requires { (cause : DeleteInheritanceError) → ¬ RefusesDeletion self.old senior junior cause }
        ensures { self.new ≡ delete_inheritance self.old senior junior }
    {
        let pair = Inheritance { senior, junior };
        self.hierarchy = Hierarchy::of_all_but(&self.pairs, pair);
        pair.remove_from(&mut self.pairs);
    }
}
