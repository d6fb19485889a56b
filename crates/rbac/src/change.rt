use session_roles::Role;

/// A change that takes authorization away, as `Roles::authorized_if` looks ahead to it.
#[derive(Clone, Copy)]
pub enum Change<'a> {
    /// The user's name, and the role that is no longer assigned to it.
    Deassign(&'a str, Role),
    /// The senior and the junior role of the pair that is deleted.
    DeleteInheritance(Role, Role),
}
