use crate::edition::Edition;
use crate::operation::Operation;
use crate::role::Role;

/// What is known of a role whatever the session's state is.
#[derive(Clone, Copy)]
pub struct RoleRow {
    /// How it is called, as `Member`.
    pub name: &'static str,
    /// The edition that it came with.
    pub since: Edition,
    /// The operations that it permits by itself (the permission assignment of INCITS 359-2012).
    pub operations: &'static [Operation],
    /// The roles that it inherits in a new session (the role hierarchy of INCITS 359-2012).
    pub juniors: &'static [Role],
}
