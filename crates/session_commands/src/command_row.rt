use crate::command_word::CommandWord;
use crate::taken::Taken;
use crate::target::Target;
use crate::touched::Touched;

/// What is known of a command whatever the session's state is.
#[derive(Clone, Copy)]
pub struct CommandRow {
    /// How it is called.
    pub word: CommandWord,
    /// When it is taken.
    pub taken: Taken,
    /// What it is about.
    pub target: Target,
    /// Whom it may let see more.
    pub touched: Touched,
}
