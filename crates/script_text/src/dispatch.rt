//! A command's line, by its first word.
ghost use Rattle.std.specs.Prelude.{IfOk};
ghost use Rattle.script_text.specs.Dispatch.{command_of, kept_command, job_command, stream_command};
ghost use Rattle.script_text.specs.Script.{IsWhole};
ghost use Rattle.script_text.specs.Spelled.{IsReadOf};

use crate::answer::Refusal;
use crate::collect_line::collect_of;
use crate::fetch_line::fetch_of;
use crate::item::Command;
use crate::job_line::{job_of, open_of};
use crate::list_line::{catalog_of, entries_of};
use crate::run_line::run_of;
use crate::stream_line::stream_of;
use crate::words::{
    behind_catalog, behind_close, behind_collect, behind_drop, behind_entries, behind_fetch,
    behind_open, behind_run, behind_step, behind_stream,
};
use rows_core::Memory;
use std::alloc::Global;

/// The command that a line spells which has no spaces at its front: `Syntax` exactly where it spells none,
/// and a limit exactly where it spells a plan that passes it, unless memory is wanted first.
pub fn line_command(alloc: Global, text: &[u8]) -> Result<Command, Refusal>
    ensures read { IsReadOf (command_of text.now) result }
    ensures whole { IfOk result IsWhole }
{
    if let Some(rest) = behind_stream(text) {
        return stream_command(alloc, rest);
    }
    match behind_run(text) {
        Some(rest) => run_of(alloc, rest),
        None => kept_command(alloc, text),
    }
}

// The command of a line that asks for what is kept, rows, room or a list, or that is of a job.
fn kept_command(alloc: Global, text: &[u8]) -> Result<Command, Refusal>
    ensures read { IsReadOf (kept_command text.now) result }
    ensures whole { IfOk result IsWhole }
{
    if let Some(rest) = behind_fetch(text) {
        return fetch_of(alloc, rest);
    }
    if let Some(rest) = behind_collect(text) {
        return collect_of(rest);
    }
    if let Some(rest) = behind_entries(text) {
        return entries_of(rest);
    }
    match behind_catalog(text) {
        Some(rest) => catalog_of(rest),
        None => job_command(alloc, text),
    }
}

// The command of a line that is of a job.
fn job_command(alloc: Global, text: &[u8]) -> Result<Command, Refusal>
    ensures read { IsReadOf (job_command text.now) result }
    ensures whole { IfOk result IsWhole }
{
    if let Some(rest) = behind_open(text) {
        return open_of(alloc, rest);
    }
    if let Some(rest) = behind_step(text) {
        let job = job_of(alloc, rest)?;
        return Ok(Command::Step { job });
    }
    if let Some(rest) = behind_close(text) {
        let job = job_of(alloc, rest)?;
        return Ok(Command::Close { job });
    }
    let Some(rest) = behind_drop(text) else {
        return Err(Refusal::Syntax);
    };
    let job = job_of(alloc, rest)?;
    Ok(Command::DropJob { job })
}

// The making of a stream, of which this stands behind its first word.
fn stream_command(alloc: Global, rest: &[u8]) -> Result<Command, Refusal>
    ensures read { IsReadOf (stream_command rest.now) result }
    ensures whole { IfOk result IsWhole }
{
    match stream_of(alloc, rest) {
        Ok(Some(command)) => Ok(command),
        Ok(None) => Err(Refusal::Syntax),
        Err(Memory) => Err(Refusal::Memory),
    }
}
