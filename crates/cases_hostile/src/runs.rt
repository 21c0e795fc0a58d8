//! Runs of the whole program over a store in memory.

use anyhow::{Result, bail};
use case_text::{script, shown};
use mem_outside::{MemSink, MemSource, MemStore};
use nectar_top::{Exit, nectar};
use outside_traits::Store;
use std::alloc::Global;

/// A folder without files, of whose calls none fails.
pub fn empty(alloc: Global) -> MemStore {
    MemStore::new(alloc, Vec::new(alloc))
}

/// One of the folders that a crash may leave.
pub fn image(folder: &MemStore, pick: u64) -> Result<MemStore> {
    Ok(folder.image(pick)?)
}

/// The exit of a run, and its answers.
pub fn outcome(alloc: Global, script: &[u8], store: &mut MemStore) -> Result<(Exit, Vec<u8>)> {
    let script = Vec::from_slice(alloc, script)?;
    let source = MemSource::new(script, usize::MAX, Vec::new(alloc));
    let sink = MemSink::new(alloc, Vec::new(alloc));
    outcome_over(alloc, source, sink, store)
}

/// The exit of a run over this source, sink and store, and its answers.
pub fn outcome_over<S: Store>(
    alloc: Global,
    mut source: MemSource,
    mut sink: MemSink,
    store: &mut S,
) -> Result<(Exit, Vec<u8>)> {
    let exit = nectar(alloc, &["folder"], &mut source, &mut sink, store);
    with_answers(alloc, exit, sink.written())
}

fn with_answers(alloc: Global, exit: Exit, written: &[u8]) -> Result<(Exit, Vec<u8>)> {
    Ok((exit, Vec::from_slice(alloc, written)?))
}

/// The answers of a run that is done.
pub fn done(alloc: Global, script: &[u8], store: &mut MemStore) -> Result<Vec<u8>> {
    match outcome(alloc, script, store)? {
        (Exit::Done, answers) => Ok(answers),
        (exit, _) => bail!("a run ends with {exit:?}"),
    }
}

/// The answers of a run on a script as a case writes it.
pub fn answers(alloc: Global, text: &str, store: &mut MemStore) -> Result<Vec<u8>> {
    let script = script::bytes(alloc, text)?;
    done(alloc, &script, store)
}

/// Runs on the same folder, of which each but the first stands behind ` ; `.
pub fn run_each(alloc: Global, runs: &str, store: &mut MemStore) -> Result<()> {
    for text in runs.split(" ; ") {
        answers(alloc, text, store)?;
    }
    Ok(())
}

/// The exit and the answers in a line.
pub fn told(alloc: Global, exit: Exit, answers: &[u8]) -> Result<String> {
    let answers = shown::lines(alloc, answers)?;
    Ok(format!(in alloc; "{exit:?}: {answers}")?)
}
