//! Commands that are drawn from a seed, of streams, plans, names and jobs that are always the same. The whole program
//! is run on them once, over a folder in memory, and the rows of each result are held beside those that
//! `plan_evaluator` gives of the plan as it is written: on all rows that were appended by then; on those of the name's
//! last run or close; and for a job on those of its opening.

use crate::judging::judged;
use crate::making::{Command, Made, commands_of};
use crate::plans::STREAMS;
use crate::runs::{done, empty};
use anyhow::{Context, Result};
use mem_outside::MemStore;
use std::alloc::Global;

/// How many commands, results, closed jobs and collections there were: `SEED COUNT`, so many commands.
pub fn jobs(alloc: Global, arguments: &str) -> Result<String> {
    let (seed, count) = arguments.split_once(' ').context("no number of commands")?;
    let made = commands_of(alloc, seed.parse::<u64>()?, count.parse::<u64>()?)?;
    run_and_judged(alloc, &made)
}

fn run_and_judged(alloc: Global, made: &Made) -> Result<String> {
    let answers = answers(alloc, &made.commands)?;
    judged(alloc, made, answers.as_str())
}

/// The answers to the commands that make the streams and to these.
fn answers(alloc: Global, commands: &[Command]) -> Result<String> {
    let mut folder = empty(alloc);
    answers_in(alloc, commands, &mut folder)
}

fn answers_in(alloc: Global, commands: &[Command], folder: &mut MemStore) -> Result<String> {
    let mut script = Vec::from_slice(alloc, STREAMS.as_bytes())?;
    for command in commands {
        script.extend_from_slice(command.text.as_bytes())?;
    }
    Ok(String::from_utf8(done(alloc, &script, folder)?)?)
}
