use crate::actor::Actor;
use crate::command::Command;

/// A command that was accepted, and who gave it.
#[derive(Clone, Copy)]
pub struct Entry {
    pub actor: Actor,
    pub command: Command,
}
