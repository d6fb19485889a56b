ghost use Rattle.std.specs.Prelude.{◌≡◌};
ghost use Rattle.session_commands.specs.Row.{operation_called, word_text};

use session_roles::Operation;

/// How a command is called, without what it carries.
#[derive(Clone, Copy)]
pub enum CommandWord {
    /// As the operation for which a user needs the permission.
    Of(Operation),
    Solved,
    Analysed,
}

impl CommandWord {
    /// The operation for which a user needs the permission; the solver's words have none.
    pub fn operation(self) -> Option<Operation>
        ensures { result ≡ operation_called self }
    {
        match self {
            CommandWord::Of(operation) => Some(operation),
            CommandWord::Solved | CommandWord::Analysed => None,
        }
    }

    /// The word as it is written.
    pub fn text(self) -> &'static str
        ensures { result.now ≡ word_text self }
    {
        match self {
            CommandWord::Of(operation) => operation.name(),
            CommandWord::Solved => "Solved",
            CommandWord::Analysed => "Analysed",
        }
    }
}
