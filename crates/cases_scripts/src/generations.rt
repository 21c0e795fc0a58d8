//! Folders whose log has grown long. Runs on the same folder stand behind each other with ` ; ` between them.

use crate::runs::{FOLDER, answers, empty, image, outcome};
use anyhow::{Context, Result};
use case_text::shown;
use mem_outside::MemStore;
use nectar_top::Exit;
use std::alloc::Global;

/// The most calls that a loading is tried with.
const MAX_CALLS: u64 = 100;

/// How many images `MemStore` makes of a moment.
const IMAGES: u64 = 8;

/// The file of the first generation's log; that of each later one is the file behind.
const FIRST_LOG: u64 = 4_294_967_296;

/// How many generations are shown.
const GENERATIONS: u64 = 3;

/// How many bytes the root and the logs of the first generations have after each run; none where a file isn't
/// there.
pub fn logs(alloc: Global, runs: &str) -> Result<String> {
    let mut folder = empty(alloc);
    logs_in(alloc, runs, &mut folder)
}

fn logs_in(alloc: Global, runs: &str, folder: &mut MemStore) -> Result<String> {
    let mut lines = Vec::new(alloc);
    for run in runs.split(" ; ") {
        answers(alloc, run, folder)?;
        push_lens(alloc, folder, &mut lines)?;
    }
    shown::lines(alloc, &lines)
}

// Appends the lengths of the root and the first generations' logs.
fn push_lens(alloc: Global, folder: &MemStore, lines: &mut Vec<u8>) -> Result<()> {
    let root = folder.bytes(0).len();
    lines.extend_from_slice(format!(in alloc; "root {root}, logs")?.as_bytes())?;
    for file in FIRST_LOG..FIRST_LOG + GENERATIONS {
        let log = folder.bytes(file).len();
        lines.extend_from_slice(format!(in alloc; " {log}")?.as_bytes())?;
    }
    lines.push(b'\n')?;
    Ok(())
}

/// How many calls of the store loading makes of the folder that a run leaves. From each of them on the store
/// fails in a loading of its own: each image that a crash may then leave has the state of the folder, which is
/// what the probe in front of ` : ` is answered.
pub fn loading(alloc: Global, arguments: &str) -> Result<String> {
    let (probe, run) = arguments.split_once(" : ").context("no run")?;
    let mut folder = empty(alloc);
    loading_of(alloc, probe, run, &mut folder)
}

fn loading_of(alloc: Global, probe: &str, run: &str, folder: &mut MemStore) -> Result<String> {
    answers(alloc, run, folder)?;
    let state = answers_on_image(alloc, probe, folder, 0)?;
    for call in 0..MAX_CALLS {
        if !fails(alloc, probe, folder, &state, call)? {
            return Ok(format!(in alloc; "{call} calls")?);
        }
    }
    None.context("too many calls")
}

// What is answered on one of the folders that a crash may leave.
fn answers_on_image(alloc: Global, text: &str, folder: &MemStore, pick: u64) -> Result<Vec<u8>> {
    let mut image = image(folder, pick)?;
    answers(alloc, text, &mut image)
}

// Whether loading makes the call, from which on the store fails.
fn fails(alloc: Global, probe: &str, folder: &MemStore, state: &[u8], call: u64) -> Result<bool> {
    let mut store = image(folder, 0)?;
    store.fail_from(call);
    fails_in(alloc, probe, state, &mut store)
}

fn fails_in(alloc: Global, probe: &str, state: &[u8], store: &mut MemStore) -> Result<bool> {
    let (exit, _) = outcome(alloc, &FOLDER, b"", store)?;
    for pick in 0..IMAGES {
        if answers_on_image(alloc, probe, store, pick)?.as_slice() != state {
            return None.context("another state");
        }
    }
    Ok(exit != Exit::Done)
}
