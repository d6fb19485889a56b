ghost use Rattle.std.specs.Prelude.{◌≡◌};
ghost use Rattle.disclosure_rules.specs.Policy.{is_authorized};

use crate::seat::Seat;
use session_roles::{Role, RoleSet};

/// A user, as the policy sees one.
#[derive(Clone, Copy)]
pub struct Viewer {
    /// The roles that the user is authorized for; none where there is no such account.
    pub roles: Option<RoleSet>,
    /// Where the user sits, if the user sits somewhere.
    pub seat: Option<Seat>,
}

impl Viewer {
    /// Whether the user is authorized for a role.
    pub fn is_authorized(&self, role: Role) -> bool
        ensures { result ≡ is_authorized self.now.roles role }
    {
        match self.roles {
            Some(roles) => roles.has(role),
            None => false,
        }
    }
}
