use user_names::{Name, ShownName};

/// A user, and the name that is shown in place of the one to sign in by.
#[derive(Clone, Copy)]
pub struct ShownUser {
    pub name: Name,
    pub shown: ShownName,
}
