// The script that `replay` reads: a line as a command.
#![tactic(auto)]

ghost use Rattle.script_commands.specs.Samples.{Samples};

pub mod command;

// Lines of the script and their commands. It does nothing: its contract is the theorem.
pub fn samples()
    ensures { Samples }
{}
