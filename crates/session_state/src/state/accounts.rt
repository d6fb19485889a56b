//! Why a command on users, roles and the role hierarchy is refused, and what it does to a state.
ghost use Rattle.std.specs.Prelude.{◌≡◌, None, true, slice_set, vec_len, vec_capacity};
ghost use Rattle.rbac.specs.RoleData.{after_change};
ghost use Rattle.session_state.specs.Accounts.{has_account};
ghost use Rattle.session_state.specs.Accounts.{user_refusal, assignment_refusal, deassignment_refusal, inheritance_refusal, deletion_refusal};
ghost use Rattle.session_state.specs.Apply.{effect};
ghost use Rattle.session_state.specs.Refusal.{first_cause, hindrance_of, needed_causes, own_causes};
ghost use Rattle.session_commands.specs.declared.command.Command.TheVariants.{AddUser, Assign, Deassign, AddInheritance};
ghost use Rattle.session_commands.specs.declared.command.Command.TheVariants.{DeleteInheritance, Rename};
ghost use Rattle.session_state.specs.Readers.{account_place};

use crate::causes::first_cause;
use crate::state::State;
use rbac::{
    Account, AddInheritanceError, AddUserError, AssignError, Change, DeassignError,
    DeleteInheritanceError, Roles,
};
use session_commands::Refusal;
use session_commands::room::put_item;
use session_roles::Role;
use user_names::{Digest, Name, ShownName};

impl State {
    /// The users, their roles and the role hierarchy.
    pub fn roles(&self) -> &Roles
        ensures { result.now ≡ self.now.roles }
    {
        &self.roles
    }

    pub(super) fn add_user_cause(&self, name: Name) -> Option<Refusal>
        ensures { (digest : Digest) → result ≡ first_cause (own_causes self.now (AddUser name digest)) }
    {
        let cause = self.roles().user_cause(name.as_str())?;
        Some(user_refusal(cause))
    }

    // Adds an account with no role, and no name to show.
    pub(super) fn add_user(&mut self, name: Name, digest: Digest)
        requires { hindrance_of self.old (AddUser name digest) ≡ None }
        ensures { self.new ≡ effect self.old (AddUser name digest) }
    {
        let Ok(()) = self.roles.add_user(name.as_str()) else {
            unreachable!();
        };
        put_item(&mut self.digests, digest);
        put_item(&mut self.names, ShownName::none());
    }

    pub(super) fn assign_cause(&self, name: Name, role: Role) -> Option<Refusal>
        requires { has_account self.now.roles name ≡ true }
        ensures { result ≡ first_cause (own_causes self.now (Assign name role)) }
    {
        let cause = self.roles().assignment_cause(name.as_str(), role)?;
        Some(assignment_refusal(cause))
    }

    // Assigns a role to a user.
    pub(super) fn assign(&mut self, name: Name, role: Role)
        requires { hindrance_of self.old (Assign name role) ≡ None }
        ensures { self.new ≡ effect self.old (Assign name role) }
    {
        let Ok(()) = self.roles.assign(name.as_str(), role) else {
            unreachable!();
        };
    }

    pub(super) fn deassign_cause(&self, name: Name, role: Role) -> Option<Refusal>
        requires { has_account self.now.roles name ≡ true }
        ensures { result ≡ first_cause (own_causes self.now (Deassign name role)) }
    {
        match self.roles().deassignment_cause(name.as_str(), role) {
            Some(cause) => Some(deassignment_refusal(cause)),
            None => self.needed_cause(Change::Deassign(name.as_str(), role)),
        }
    }

    // Takes an assigned role from a user.
    pub(super) fn deassign(&mut self, name: Name, role: Role)
        requires { hindrance_of self.old (Deassign name role) ≡ None }
        ensures { self.new ≡ effect self.old (Deassign name role) }
    {
        let Ok(()) = self.roles.deassign(name.as_str(), role) else {
            unreachable!();
        };
    }

    pub(super) fn add_inheritance_cause(&self, senior: Role, junior: Role) -> Option<Refusal>
        ensures { result ≡ first_cause (own_causes self.now (AddInheritance senior junior)) }
    {
        let cause = self.roles().inheritance_cause(senior, junior)?;
        Some(inheritance_refusal(cause))
    }

    // Lets the senior role inherit the junior one.
    pub(super) fn add_inheritance(&mut self, senior: Role, junior: Role)
        requires { hindrance_of self.old (AddInheritance senior junior) ≡ None }
        ensures { self.new ≡ effect self.old (AddInheritance senior junior) }
    {
        let Ok(()) = self.roles.add_inheritance(senior, junior) else {
            unreachable!();
        };
    }

    pub(super) fn delete_inheritance_cause(&self, senior: Role, junior: Role) -> Option<Refusal>
        ensures { result ≡ first_cause (own_causes self.now (DeleteInheritance senior junior)) }
    {
        match self.roles().deletion_cause(senior, junior) {
            Some(cause) => Some(deletion_refusal(cause)),
            None => self.needed_cause(Change::DeleteInheritance(senior, junior)),
        }
    }

    // Deletes an inheritance pair.
    pub(super) fn delete_inheritance(&mut self, senior: Role, junior: Role)
        requires { hindrance_of self.old (DeleteInheritance senior junior) ≡ None }
        ensures { self.new ≡ effect self.old (DeleteInheritance senior junior) }
    {
        let Ok(()) = self.roles.delete_inheritance(senior, junior) else {
            unreachable!();
        };
    }

    // Gives a user a name to show in place of the one that there was.
    pub(super) fn rename(&mut self, name: Name, shown: ShownName)
        ensures { self.new ≡ effect self.old (Rename name shown) }
    {
        let place = account_place(self.roles.accounts(), name);
        put_at(&mut self.names, place, shown);
    }

    // Why authorization may not be taken away by a change.
    fn needed_cause(&self, change: Change<'_>) -> Option<Refusal>
        ensures { result ≡ first_cause (needed_causes self.now (after_change self.now.roles change.entry)) }
    {
        let has_administrator = self.roles().has_user_if(Role::Administrator, change);
        first_cause(&[
            self.seats_a_stranger_if(change)
                .then_some(Refusal::StillSeated),
            (!has_administrator).then_some(Refusal::LastAdministrator),
        ])
    }
}

// What a command is refused as that adds a user.
fn user_refusal(cause: AddUserError) -> Refusal
    ensures { result ≡ user_refusal cause }
{
    match cause {
        AddUserError::BadName => Refusal::BadName,
        AddUserError::UserExists => Refusal::UserExists,
        AddUserError::TooManyUsers => Refusal::TooManyUsers,
    }
}

// What a command is refused as that assigns a role.
fn assignment_refusal(cause: AssignError) -> Refusal
    ensures { result ≡ assignment_refusal cause }
{
    match cause {
        AssignError::NoSuchUser => Refusal::NoSuchUser,
        AssignError::NoSuchRole => Refusal::NoSuchRole,
        AssignError::AlreadyAssigned => Refusal::AlreadyAssigned,
        AssignError::Separation(set) => Refusal::Separation(set),
    }
}

// What a command is refused as that takes a role away.
fn deassignment_refusal(cause: DeassignError) -> Refusal
    ensures { result ≡ deassignment_refusal cause }
{
    match cause {
        DeassignError::NoSuchUser => Refusal::NoSuchUser,
        DeassignError::NoSuchRole => Refusal::NoSuchRole,
        DeassignError::NotAssigned => Refusal::NotAssigned,
    }
}

// What a command is refused as that adds an inheritance pair.
fn inheritance_refusal(cause: AddInheritanceError) -> Refusal
    ensures { result ≡ inheritance_refusal cause }
{
    match cause {
        AddInheritanceError::NoSuchRole => Refusal::NoSuchRole,
        AddInheritanceError::Cycle => Refusal::Cycle,
        AddInheritanceError::AlreadyThere => Refusal::AlreadyThere,
        AddInheritanceError::Separation(set) => Refusal::Separation(set),
    }
}

// What a command is refused as that deletes an inheritance pair.
fn deletion_refusal(cause: DeleteInheritanceError) -> Refusal
    ensures { result ≡ deletion_refusal cause }
{
    match cause {
        DeleteInheritanceError::NoSuchRole => Refusal::NoSuchRole,
        DeleteInheritanceError::NotThere => Refusal::NotThere,
    }
}

// Where the account of a name stands: after all others, where there is none.
fn account_place(accounts: &[Account], name: Name) -> usize
    ensures { result ≡ account_place accounts.now name }
{
    for place in 0..accounts.len() {
        if accounts[place].name == name {
            return place;
        }
    }
    accounts.len()
}

// Puts a name to show in a place, where there is such a place.
fn put_at(names: &mut Vec<ShownName>, place: usize, shown: ShownName)
    ensures items { names.new.items ≡ slice_set names.old.items place shown }
    ensures len { vec_len names.new ≡ vec_len names.old }
    ensures room { vec_capacity names.new ≡ vec_capacity names.old }
{
    if place < names.len() {
        names[place] = shown;
    }
}
