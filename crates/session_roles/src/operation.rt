ghost use Rattle.std.specs.Prelude.{◌≡◌, ◌<◌};
ghost use Rattle.std.specs.List.{list_any};
ghost use Rattle.session_roles.specs.Role.{has, roles};
ghost use Rattle.session_roles.specs.RoleRow.{role_row};
ghost use Rattle.session_roles.specs.Operation.{is_operation_of, operation_name, operation_number, operations_of, one_permits, permits};

use crate::edition::Edition;
use crate::role::Role;
use crate::role_row::RoleRow;
use crate::role_set::RoleSet;

/// What a user may do with a session (an operation of INCITS 359-2012).
#[derive(Clone, Copy)]
pub enum Operation {
    Enter,
    Confirm,
    Correct,
    Rule,
    Void,
    Hold,
    Release,
    Seat,
    Unseat,
    NextRound,
    Close,
    Finalise,
    Audit,
    AddUser,
    Assign,
    Deassign,
    AddInheritance,
    DeleteInheritance,
    Embargo,
    Lift,
    Rename,
}

impl Operation {
    /// The operation's place in their order, from 0.
    pub fn number(self) -> u8
        ensures number { result ≡ operation_number self }
        ensures below { result < 21 }
    {
        self as u8
    }

    /// The operation's name, as `Enter`.
    pub fn name(self) -> &'static str
        ensures { result.now ≡ operation_name self }
    {
        match self {
            Operation::Enter => "Enter",
            Operation::Confirm => "Confirm",
            Operation::Correct => "Correct",
            Operation::Rule => "Rule",
            Operation::Void => "Void",
            Operation::Hold => "Hold",
            Operation::Release => "Release",
            Operation::Seat => "Seat",
            Operation::Unseat => "Unseat",
            Operation::NextRound => "NextRound",
            Operation::Close => "Close",
            Operation::Finalise => "Finalise",
            Operation::Audit => "Audit",
            Operation::AddUser => "AddUser",
            Operation::Assign => "Assign",
            Operation::Deassign => "Deassign",
            Operation::AddInheritance => "AddInheritance",
            Operation::DeleteInheritance => "DeleteInheritance",
            Operation::Embargo => "Embargo",
            Operation::Lift => "Lift",
            Operation::Rename => "Rename",
        }
    }

    /// Whether an edition knows the operation.
    pub fn is_of(self, edition: Edition) -> bool
        ensures { result ≡ is_operation_of edition self }
    {
        match self {
            Operation::Embargo | Operation::Lift | Operation::Rename => edition.is_second(),
            Operation::Enter
            | Operation::Confirm
            | Operation::Correct
            | Operation::Rule
            | Operation::Void
            | Operation::Hold
            | Operation::Release
            | Operation::Seat
            | Operation::Unseat
            | Operation::NextRound
            | Operation::Close
            | Operation::Finalise
            | Operation::Audit
            | Operation::AddUser
            | Operation::Assign
            | Operation::Deassign
            | Operation::AddInheritance
            | Operation::DeleteInheritance => true,
        }
    }

    /// Whether one of the roles permits the operation.
    pub fn is_permitted_by(self, roles: RoleSet) -> bool
        ensures { result ≡ one_permits roles self }
    {
        Role::ALL
            .iter()
            .any(|role| roles.has(*role) && role.permits(self))
    }
}

impl Role {
    /// Its row: what is known of it whatever the session's state is.
    pub fn row(self) -> RoleRow
        ensures name { result.name.now ≡ (role_row self).name }
        ensures since { result.since ≡ (role_row self).since }
        ensures operations { result.operations.now ≡ (role_row self).operations }
        ensures juniors { result.juniors.now ≡ (role_row self).juniors }
    {
        match self {
            Role::Member => RoleRow {
                name: "Member",
                since: Edition::First,
                operations: &[],
                juniors: &[],
            },
            Role::Spectator => RoleRow {
                name: "Spectator",
                since: Edition::First,
                operations: &[],
                juniors: &[Role::Member],
            },
            Role::Contestant => RoleRow {
                name: "Contestant",
                since: Edition::First,
                operations: &[],
                juniors: &[Role::Member],
            },
            Role::Scorer => RoleRow {
                name: "Scorer",
                since: Edition::First,
                operations: &[Operation::Enter, Operation::Confirm],
                juniors: &[Role::Member],
            },
            Role::Director => RoleRow {
                name: "Director",
                since: Edition::First,
                operations: &[
                    Operation::Correct,
                    Operation::Rule,
                    Operation::Void,
                    Operation::Hold,
                    Operation::Release,
                    Operation::Seat,
                    Operation::Unseat,
                    Operation::NextRound,
                    Operation::Close,
                    Operation::Finalise,
                    Operation::Audit,
                    Operation::Embargo,
                    Operation::Lift,
                ],
                juniors: &[Role::Scorer, Role::Spectator],
            },
            Role::Administrator => RoleRow {
                name: "Administrator",
                since: Edition::First,
                operations: &[
                    Operation::AddUser,
                    Operation::Assign,
                    Operation::Deassign,
                    Operation::AddInheritance,
                    Operation::DeleteInheritance,
                    Operation::Audit,
                    Operation::Rename,
                ],
                juniors: &[Role::Member],
            },
            Role::Commentator => RoleRow {
                name: "Commentator",
                since: Edition::Second,
                operations: &[],
                juniors: &[Role::Spectator],
            },
        }
    }

    /// The operations that the role itself permits (the permission assignment of INCITS 359-2012).
    pub fn operations(self) -> &'static [Operation]
        ensures { result.now ≡ operations_of self }
    {
        self.row().operations
    }

    /// Whether the role itself permits the operation.
    pub fn permits(self, operation: Operation) -> bool
        ensures { result ≡ permits self operation }
    {
        self.operations().contains(&operation)
    }
}

impl PartialEq for Operation {
    ghost use Rattle.std.specs.Cmp.{on_per, partial_equiv_from_equiv, nat_eq_equiv};
    ghost use Rattle.session_roles.specs.Operation.{operation_number, same_operation};

    ghost eq = { same_operation };

    ghost laws = { on_per operation_number (partial_equiv_from_equiv nat_eq_equiv) };

    fn eq(&self, other: &Operation) -> bool {
        self.number() == other.number()
    }
}

impl Eq for Operation {
    ghost use Rattle.std.specs.Cmp.{on_equiv, nat_eq_equiv};
    ghost use Rattle.session_roles.specs.Operation.{operation_number};

    ghost laws = { on_equiv operation_number nat_eq_equiv };
}
