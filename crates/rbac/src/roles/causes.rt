//! Why a change of users, roles or the role hierarchy is refused: the first of its causes that holds, if one does. No call
//! changes anything.
ghost use Rattle.std.specs.Prelude.{◌≡◌};
ghost use Rattle.rbac.specs.Causes.{user_cause, assignment_cause, deassignment_cause, inheritance_cause, deletion_cause};

use crate::add_inheritance_error::AddInheritanceError;
use crate::add_user_error::AddUserError;
use crate::assign_error::AssignError;
use crate::deassign_error::DeassignError;
use crate::delete_inheritance_error::DeleteInheritanceError;
use crate::lookup::{are_roles_of, is_user_name};
use crate::roles::Roles;
use session_roles::Role;

impl Roles {
    /// Why `add_user` refuses a name.
    pub fn user_cause(&self, name: &str) -> Option<AddUserError>
        ensures { result ≡ user_cause self.now name.now }
    {
        if !is_user_name(name) {
            return Some(AddUserError::BadName);
        }
        if self.has_account(name) {
            return Some(AddUserError::UserExists);
        }
        if self.user_count() >= Roles::MOST_USERS {
            return Some(AddUserError::TooManyUsers);
        }
        None
    }

    /// Why `assign` refuses a role to a user.
    pub fn assignment_cause(&self, name: &str, role: Role) -> Option<AssignError>
        ensures { result ≡ assignment_cause self.now name.now role }
    {
        if !self.has_account(name) {
            return Some(AssignError::NoSuchUser);
        }
        if !role.is_of(self.edition()) {
            return Some(AssignError::NoSuchRole);
        }
        if self.is_assigned(name, role) {
            return Some(AssignError::AlreadyAssigned);
        }
        self.broken_by_assignment(name, role)
            .map(AssignError::Separation)
    }

    /// Why `deassign` refuses to take a role from a user.
    pub fn deassignment_cause(&self, name: &str, role: Role) -> Option<DeassignError>
        ensures { result ≡ deassignment_cause self.now name.now role }
    {
        if !self.has_account(name) {
            return Some(DeassignError::NoSuchUser);
        }
        if !role.is_of(self.edition()) {
            return Some(DeassignError::NoSuchRole);
        }
        if !self.is_assigned(name, role) {
            return Some(DeassignError::NotAssigned);
        }
        None
    }

    /// Why `add_inheritance` refuses a pair.
    pub fn inheritance_cause(&self, senior: Role, junior: Role) -> Option<AddInheritanceError>
        ensures { result ≡ inheritance_cause self.now senior junior }
    {
        if !are_roles_of(self.edition(), senior, junior) {
            return Some(AddInheritanceError::NoSuchRole);
        }
        if self.reaches(junior, senior) {
            return Some(AddInheritanceError::Cycle);
        }
        if self.has_pair(senior, junior) {
            return Some(AddInheritanceError::AlreadyThere);
        }
        self.broken_by_inheritance(senior, junior)
            .map(AddInheritanceError::Separation)
    }

    /// Why `delete_inheritance` refuses a pair.
    pub fn deletion_cause(&self, senior: Role, junior: Role) -> Option<DeleteInheritanceError>
        ensures { result ≡ deletion_cause self.now senior junior }
    {
        if !are_roles_of(self.edition(), senior, junior) {
            return Some(DeleteInheritanceError::NoSuchRole);
        }
        if !self.has_pair(senior, junior) {
            return Some(DeleteInheritanceError::NotThere);
        }
        None
    }
}
