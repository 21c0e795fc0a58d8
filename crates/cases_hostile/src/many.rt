//! A log of which one body keeps many results.

use crate::runs::{empty, outcome, told};
use anyhow::Result;
use std::alloc::Global;

/// The file of the first generation's log.
const FIRST_LOG: u64 = 4_294_967_296;

/// The root that names the first generation.
const ROOT: &str = "4e584c31000000000100000008000000000000000000";

/// The log's header, the stream `d (a:int)`, and a row of it in file 1, up to the file's digest.
const FRONT: &str =
    "4e584c31000000000100000007010164010161010100000031020000000000000001000000010000002b";

/// A kept result up to its file: the rows of the stream's one extent.
const PLAN_AND_CUT: &str = "000000050100000000010000000000000001";

/// The length of each result's file.
const FILE_LEN: u32 = 43;

/// The machine time of each.
const MACHINE: u32 = 1;

const DIGEST: [u8; 32] = [0; 32];

/// The exit and the answers of a run over a folder whose log has a stream, an append, and a piece of work that
/// keeps so many results of one plan and cut: `COUNT`.
pub fn many_results(alloc: Global, arguments: &str) -> Result<String> {
    let log = log_of(alloc, arguments.parse::<u32>()?)?;
    let root = hex::decode(alloc, ROOT)?;
    let mut store = empty(alloc);
    store.put(0, &root)?;
    store.put(FIRST_LOG, &log)?;
    let (exit, answers) = outcome(alloc, b"entries\n", &mut store)?;
    told(alloc, exit, &answers)
}

fn log_of(alloc: Global, count: u32) -> Result<Vec<u8>> {
    let work = work_of(alloc, count)?;
    let len = u32::try_from(work.len())?;
    let mut log = hex::decode(alloc, FRONT)?;
    log.extend_from_slice(&DIGEST)?;
    log.push(1)?;
    log.extend_from_slice(&len.to_be_bytes())?;
    log.extend_from_slice(&work)?;
    log.push(0)?;
    Ok(log)
}

// The tag, no program, no ids, and the results, whose files are those behind the first.
fn work_of(alloc: Global, count: u32) -> Result<Vec<u8>> {
    let plan_and_cut = hex::decode(alloc, PLAN_AND_CUT)?;
    let mut work = Vec::from_slice(alloc, &[3, 0, 0, 0, 0, 0, 0, 0, 0, 0])?;
    work.extend_from_slice(&count.to_be_bytes())?;
    for place in 0..count {
        work.extend_from_slice(&plan_and_cut)?;
        put_file(&mut work, place.saturating_add(2))?;
    }
    Ok(work)
}

fn put_file(work: &mut Vec<u8>, file: u32) -> Result<()> {
    work.extend_from_slice(&file.to_be_bytes())?;
    work.extend_from_slice(&FILE_LEN.to_be_bytes())?;
    work.extend_from_slice(&DIGEST)?;
    work.extend_from_slice(&MACHINE.to_be_bytes())?;
    Ok(())
}
