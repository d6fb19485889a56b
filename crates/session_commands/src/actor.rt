use user_names::Name;

/// Who gives a command.
#[derive(Clone, Copy)]
pub enum Actor {
    /// The user of this name.
    User(Name),
    /// The double-dummy solver, which tells what it found.
    Solver,
}
