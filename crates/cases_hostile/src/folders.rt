//! Folders whose files are given.

use crate::runs::{empty, outcome, told};
use anyhow::{Context, Result};
use case_text::script;
use mem_outside::MemStore;
use std::alloc::Global;

/// The exit and the answers of a run over these files: each is `NUMBER=BYTES`, with bytes in hex and a space
/// between two files, and the script stands behind ` : `.
pub fn folder(alloc: Global, arguments: &str) -> Result<String> {
    let (files, text) = arguments.split_once(" : ").context("no script")?;
    let mut store = empty(alloc);
    run_over(alloc, files, text, &mut store)
}

fn run_over(alloc: Global, files: &str, text: &str, store: &mut MemStore) -> Result<String> {
    put_all(alloc, files, store)?;
    let script = script::bytes(alloc, text)?;
    let (exit, answers) = outcome(alloc, &script, store)?;
    told(alloc, exit, &answers)
}

/// Puts files into a folder.
pub fn put_all(alloc: Global, files: &str, store: &mut MemStore) -> Result<()> {
    for file in files.split(' ') {
        put(alloc, file, store)?;
    }
    Ok(())
}

fn put(alloc: Global, file: &str, store: &mut MemStore) -> Result<()> {
    let (number, digits) = file.split_once('=').context("no bytes of a file")?;
    let bytes = hex::decode(alloc, digits)?;
    store.put(number.parse::<u64>()?, &bytes)?;
    Ok(())
}
