ghost use Rattle.std.specs.Prelude.{◌≡◌};

use session_commands::Command;
use std::marker::Model;

/// The commands of a batch, in their order.
#[derive(Drop)]
pub struct Commands {
    commands: Vec<Command>,
}

impl Model for Commands {
    ghost use Rattle.std.specs.Prelude.{List};
    ghost use Rattle.std.specs.Coded.{coded_list};
    ghost use Rattle.session_commands.specs.contracts.command.Command as the_command;
    ghost use Rattle.session_commands.specs.declared.command.Command.{Command};

    ghost Value = { List Command };

    ghost coded = { coded_list the_command.the_row.coded };

    ghost view = { λ batch. batch.commands.items };
}

impl Commands {
    /// The commands of a list, in its order.
    pub fn new(commands: Vec<Command>) -> Commands
        ensures { result ≡ commands.items }
    {
        Self { commands }
    }

    /// The commands, the first one to be done first.
    pub fn as_slice(&self) -> &[Command]
        ensures { result.now ≡ self.now }
    {
        self.commands.as_slice()
    }
}
