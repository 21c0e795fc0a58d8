//! Files that nothing names.

use crate::failing::Failing;
use crate::runs::{empty, outcome, told};
use crate::watched::{Call, WatchedStore};
use anyhow::{Context, Result, bail};
use case_text::{script, shown};
use mem_outside::MemStore;
use outside_traits::Store;
use std::alloc::Global;

/// The most calls that a run is tried with.
const MAX_CALLS: u64 = 1_000;

/// The exit and the answers where the first removal fails behind which the file of this number is there, and
/// whether it is there at that end, and once the folder was loaded again.
pub fn unremoved(alloc: Global, arguments: &str) -> Result<String> {
    let (file, text) = arguments.split_once(' ').context("no script")?;
    let file = file.parse::<u64>()?;
    let script = script::bytes(alloc, text)?;
    for call in 0..MAX_CALLS {
        if let Some(told) = unremoved_by(alloc, file, &script, Failing::Store(call))? {
            return Ok(told);
        }
    }
    bail!("no removal")
}

fn unremoved_by(
    alloc: Global,
    file: u64,
    script: &[u8],
    failing: Failing,
) -> Result<Option<String>> {
    let mut folder = failing.folder(alloc)?;
    unremoved_in(alloc, file, script, failing, &mut folder)
}

fn unremoved_in(
    alloc: Global,
    file: u64,
    script: &[u8],
    failing: Failing,
    folder: &mut WatchedStore,
) -> Result<Option<String>> {
    let (exit, answers) = failing.outcome(alloc, script, folder)?;
    let at_end = presence(&mut folder.store, file)?;
    if folder.failed != Some(Call::Remove) || at_end == "gone" {
        return Ok(None);
    }
    let told = told(alloc, exit, &answers)?;
    outcome(alloc, b"", &mut folder.store)?;
    let behind = presence(&mut folder.store, file)?;
    Ok(Some(format!(in alloc; "{told}; {at_end}, {behind}")?))
}

/// Whether the file of this number, which stands beside the others before each run, is there behind it. The
/// folder is empty but for it at first.
pub fn strays(alloc: Global, arguments: &str) -> Result<String> {
    let (file, runs) = arguments.split_once(' ').context("no runs")?;
    let file = file.parse::<u64>()?;
    let mut store = empty(alloc);
    strays_in(alloc, file, runs, &mut store)
}

fn strays_in(alloc: Global, file: u64, runs: &str, store: &mut MemStore) -> Result<String> {
    let mut lines = String::new(alloc);
    for text in runs.split(" ; ") {
        lines.push_str(presence_behind(alloc, file, text, store)?)?;
        lines.push('\n')?;
    }
    shown::lines(alloc, lines.as_bytes())
}

fn presence_behind(
    alloc: Global,
    file: u64,
    text: &str,
    store: &mut MemStore,
) -> Result<&'static str> {
    store.put(file, b"stray")?;
    let script = script::bytes(alloc, text)?;
    outcome(alloc, &script, store)?;
    presence(store, file)
}

// Whether a file is there.
fn presence(store: &mut MemStore, file: u64) -> Result<&'static str> {
    Ok(if store.next_file(file)? == Some(file) {
        "there"
    } else {
        "gone"
    })
}
