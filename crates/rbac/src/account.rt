use session_roles::RoleSet;
use user_names::Name;

/// A user's account: its name, and the roles that are assigned to it (core RBAC of INCITS 359-2012).
#[derive(Clone, Copy)]
pub struct Account {
    pub name: Name,
    pub assigned: RoleSet,
}
