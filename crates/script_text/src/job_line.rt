//! The lines `open JOB NAME = PLAN`, `step JOB`, `close JOB` and `drop JOB`.
ghost use Rattle.std.specs.Prelude.{IfOk};
ghost use Rattle.script_text.specs.JobLine.{job_if, job_of, open_of};
ghost use Rattle.script_text.specs.Script.{IsWhole};
ghost use Rattle.script_text.specs.Spelled.{IsReadOf};

use crate::answer::Refusal;
use crate::item::Command;
use crate::run_line::{NamedRun, named_run};
use crate::words::{name_if, only_word, split_first_word, trim_start};
use rows_core::{Memory, Name};
use std::alloc::Global;

/// The command of which this stands behind `open`: `Syntax` exactly where it is no `JOB NAME = PLAN`, and else
/// the first limit that the plan passes as it is written.
pub fn open_of(alloc: Global, text: &[u8]) -> Result<Command, Refusal>
    ensures read { IsReadOf (open_of text.now) result }
    ensures whole { IfOk result IsWhole }
{
    let (word, behind) = split_first_word(trim_start(text));
    let job = job_if(alloc, word)?;
    let NamedRun { name, plan } = named_run(alloc, behind)?;
    Ok(Command::OpenJob { job, name, plan })
}

/// The job of which this stands behind `step`, `close` or `drop`: `Syntax` exactly where it is no name.
pub fn job_of(alloc: Global, text: &[u8]) -> Result<Name, Refusal>
    ensures { IsReadOf (job_of text.now) result }
{
    match only_word(text) {
        Some(word) => job_if(alloc, word),
        None => Err(Refusal::Syntax),
    }
}

// The job of which the word is the name.
fn job_if(alloc: Global, word: &[u8]) -> Result<Name, Refusal>
    ensures { IsReadOf (job_if word.now) result }
{
    match name_if(alloc, word) {
        Ok(Some(job)) => Ok(job),
        Ok(None) => Err(Refusal::Syntax),
        Err(Memory) => Err(Refusal::Memory),
    }
}
