//! The commands that the words are read by.

use clap::{Arg, ArgAction, Command, value_parser};
use rows_core::Memory;
use std::alloc::Global;

/// `append STREAM COLUMN:KIND.. [--stream] [--skip]`, or `rows [N] [--header A,B]`.
pub(crate) fn csv_command<'a>(alloc: Global) -> Result<Command<'a>, Memory> {
    let command = Command::new(alloc, "nectar_csv")
        .disable_help_flag(true)
        .disable_help_subcommand(true)
        .subcommand_required(true)
        .subcommand(append_command(alloc)?)?
        .subcommand(rows_command(alloc)?)?;
    Ok(command)
}

fn append_command<'a>(alloc: Global) -> Result<Command<'a>, Memory> {
    let name = Arg::new(alloc, "name").required(true);
    let columns = Arg::new(alloc, "columns").required(true).num_args(1..);
    let stream = Arg::new(alloc, "stream")
        .long("stream")
        .action(ArgAction::SetTrue);
    let skip = Arg::new(alloc, "skip")
        .long("skip")
        .action(ArgAction::SetTrue);
    let command = Command::new(alloc, "append")
        .disable_help_flag(true)
        .arg(name)?
        .arg(columns)?
        .arg(stream)?
        .arg(skip)?;
    Ok(command)
}

fn rows_command<'a>(alloc: Global) -> Result<Command<'a>, Memory> {
    let number = Arg::new(alloc, "number").value_parser(value_parser!(u64));
    let header = Arg::new(alloc, "header")
        .long("header")
        .value_delimiter(',');
    let command = Command::new(alloc, "rows")
        .disable_help_flag(true)
        .arg(number)?
        .arg(header)?;
    Ok(command)
}
