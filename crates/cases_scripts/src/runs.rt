//! Runs of the whole program over a folder in memory.

use anyhow::{Context, Result};
use case_text::{script, shown};
use mem_outside::{MemSink, MemSource, MemStore};
use nectar_top::{Exit, nectar};
use std::alloc::Global;

/// The words of a run without options.
pub const FOLDER: [&str; 1] = ["folder"];

/// A folder without files, of whose calls none fails.
pub fn empty(alloc: Global) -> MemStore {
    MemStore::new(alloc, Vec::new(alloc))
}

/// One of the folders that a crash may leave.
pub fn image(folder: &MemStore, pick: u64) -> Result<MemStore> {
    Ok(folder.image(pick)?)
}

/// The exit of a run on these words and this script, and its answers.
pub fn outcome(
    alloc: Global,
    words: &[&str],
    script: &[u8],
    folder: &mut MemStore,
) -> Result<(Exit, Vec<u8>)> {
    let script = Vec::from_slice(alloc, script)?;
    let mut source = MemSource::new(script, usize::MAX, Vec::new(alloc));
    let mut sink = MemSink::new(alloc, Vec::new(alloc));
    let exit = nectar(alloc, words, &mut source, &mut sink, folder);
    with_answers(alloc, exit, sink.written())
}

fn with_answers(alloc: Global, exit: Exit, written: &[u8]) -> Result<(Exit, Vec<u8>)> {
    Ok((exit, Vec::from_slice(alloc, written)?))
}

/// The same of a run on an empty folder.
pub fn outcome_on_none(alloc: Global, words: &[&str], script: &[u8]) -> Result<(Exit, Vec<u8>)> {
    let mut folder = empty(alloc);
    outcome(alloc, words, script, &mut folder)
}

/// The answers of a run that is done.
pub fn done(alloc: Global, script: &[u8], folder: &mut MemStore) -> Result<Vec<u8>> {
    match outcome(alloc, &FOLDER, script, folder)? {
        (Exit::Done, answers) => Ok(answers),
        _ => None.context("a run isn't done"),
    }
}

/// The same of a script as a case writes it.
pub fn answers(alloc: Global, text: &str, folder: &mut MemStore) -> Result<Vec<u8>> {
    let script = script::bytes(alloc, text)?;
    done(alloc, &script, folder)
}

/// The exit and the answers in a line.
pub fn told(alloc: Global, exit: Exit, answers: &[u8]) -> Result<String> {
    let answers = shown::lines(alloc, answers)?;
    Ok(format!(in alloc; "{exit:?}: {answers}")?)
}
