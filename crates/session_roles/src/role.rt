ghost use Rattle.std.specs.Prelude.{◌≡◌, ◌≢◌, ◌<◌, IfSome, IfNone, Some};
ghost use Rattle.session_roles.specs.Role.{is_role_of, role_name, role_number};
ghost use Rattle.session_roles.specs.declared.role.Role.{Role};
ghost use Rattle.session_roles.specs.declared.role.TheConstants.Role.{COUNT};

use crate::edition::Edition;
use std::fmt;

/// A role of a session, in the order in which roles are listed (core RBAC of INCITS 359-2012).
#[derive(Clone, Copy)]
pub enum Role {
    Member,
    Spectator,
    Contestant,
    Scorer,
    Director,
    Administrator,
    Commentator,
}

impl Role {
    /// How many roles there are.
    pub const COUNT: u8 = 7;

    /// The roles, in their order.
    pub const ALL: [Role; Role::COUNT as usize] = [
        Role::Member,
        Role::Spectator,
        Role::Contestant,
        Role::Scorer,
        Role::Director,
        Role::Administrator,
        Role::Commentator,
    ];

    /// The role's place in their order, from 0.
    pub fn number(self) -> u8
        ensures number { result ≡ role_number self }
        ensures below { result < COUNT }
    {
        self as u8
    }

    /// Whether an edition knows the role.
    pub fn is_of(self, edition: Edition) -> bool
        ensures { result ≡ is_role_of edition self }
    {
        edition.has_what_came_with(self.row().since)
    }

    /// The role's name, as `Member`.
    pub fn name(self) -> &'static str
        ensures { result.now ≡ role_name self }
    {
        self.row().name
    }

    /// The role of a name.
    pub fn from_name(name: &str) -> Option<Role>
        ensures found { IfSome result (λ role. role_name role ≡ name.now) }
        ensures none { IfNone result ((role : Role) → role_name role ≢ name.now) }
    {
        match name {
            "Member" => Some(Role::Member),
            "Spectator" => Some(Role::Spectator),
            "Contestant" => Some(Role::Contestant),
            "Scorer" => Some(Role::Scorer),
            "Director" => Some(Role::Director),
            "Administrator" => Some(Role::Administrator),
            "Commentator" => Some(Role::Commentator),
            _ => None,
        }
    }
}

impl PartialEq for Role {
    ghost use Rattle.std.specs.Cmp.{on_per, partial_equiv_from_equiv, nat_eq_equiv};
    ghost use Rattle.session_roles.specs.Role.{role_number, same_role};

    ghost eq = { same_role };

    ghost laws = { on_per role_number (partial_equiv_from_equiv nat_eq_equiv) };

    fn eq(&self, other: &Role) -> bool {
        self.number() == other.number()
    }
}

impl Eq for Role {
    ghost use Rattle.std.specs.Cmp.{on_equiv, nat_eq_equiv};
    ghost use Rattle.session_roles.specs.Role.{role_number};

    ghost laws = { on_equiv role_number nat_eq_equiv };
}

impl fmt::Display for Role {
    ghost output = { λ role. Some (role_name role) };

    fn fmt<W: fmt::Write>(&self, f: &mut fmt::Formatter<W>) -> fmt::Result {
        f.write_str(self.name())
    }
}
