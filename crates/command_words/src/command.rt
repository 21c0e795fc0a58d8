//! The command that the words are read by.
ghost use Rattle.std.specs.Prelude.{◌≡◌, IfOk};
ghost use Rattle.clap.specs.Words.{app_of};
ghost use Rattle.command_words.specs.Command.{nectar_command};

use clap::{Arg, ArgAction, Command, value_parser};
use rows_core::Memory;
use std::alloc::Global;

// `nectar FOLDER [--quiet] [--generate NUMBER]`. The words come without the program's own name, and there is
// no help and no version.
pub(crate) fn nectar_command<'a>(alloc: Global) -> Result<Command<'a>, Memory>
    ensures { IfOk result (λ command. app_of command ≡ nectar_command) }
{
    let folder = Arg::new(alloc, "folder").required(true);
    let quiet = Arg::new(alloc, "quiet")
        .long("quiet")
        .action(ArgAction::SetTrue);
    let generate = Arg::new(alloc, "generate")
        .long("generate")
        .value_parser(value_parser!(u64));
    let command = Command::new(alloc, "nectar")
        .no_binary_name(true)
        .disable_help_flag(true)
        .arg(folder)?
        .arg(quiet)?
        .arg(generate)?;
    Ok(command)
}
