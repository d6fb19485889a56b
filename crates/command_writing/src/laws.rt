//! What follows from the definitions alone: each function here has nothing to do, and its clauses are the theorem.
ghost use Rattle.std.specs.Prelude.{◌≡◌, Some};
ghost use Rattle.session_commands.specs.declared.command.Command.{Command};
ghost use Rattle.session_roles.specs.declared.edition.Edition.TheVariants.{Second};
ghost use Rattle.command_object.specs.Command.{command_of};
ghost use Rattle.command_writing.specs.CommandData.{command_data};
ghost use Rattle.command_writing.specs.Writable.{IsWritable, IsSendable};

/// What is written of a command that a client can send is read as that command.
pub fn what_is_written_is_read_again()
    ensures { (command : Command) → IsWritable command → IsSendable command →
        command_of Second (command_data command) ≡ Some command }
{}

/// No two commands are written alike, with what clauses see of what the solver found.
pub fn no_two_commands_are_written_alike()
    ensures { (one other : Command) → IsWritable one → IsWritable other →
        command_data one ≡ command_data other → one ≡ other }
{}
