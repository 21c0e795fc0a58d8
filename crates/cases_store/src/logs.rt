//! Logs.

use crate::crashes::{LogLeft, log_after_a_crash};
use crate::words;
use anyhow::{Context, Result};
use gated_log::{Log, LogRefusal};
use mem_outside::MemStore;
use std::alloc::Global;

/// The end of a log of file `FILE` with one body, and the file's bytes.
pub fn committed(alloc: Global, store: &mut MemStore, arguments: &str) -> Result<String> {
    let (file, body) = words::first(arguments);
    let file = words::number(file)?;
    let body = words::bytes(alloc, body)?;
    if body.is_empty() || body.len() > 1000 {
        return None.context("no body");
    }
    let log = Log::create(store, file)?;
    let end = log.commit(store, &body)?.end();
    let bytes = words::shown(alloc, store.bytes(file))?;
    Ok(format!(in alloc; "end {end}: {bytes}")?)
}

/// How many bodies a file with these bytes has as a log.
pub fn reading(alloc: Global, store: &mut MemStore, arguments: &str) -> Result<String> {
    let bytes = words::bytes(alloc, arguments)?;
    store.put(0, &bytes)?;
    match Log::read(alloc, store, 0) {
        Ok((_, bodies)) => counted(alloc, bodies.len()),
        Err(LogRefusal::NotLog { at }) => no_log(alloc, at),
        Err(refusal) => Err(refusal.into()),
    }
}

fn counted(alloc: Global, count: usize) -> Result<String> {
    Ok(format!(in alloc; "bodies: {count}")?)
}

fn no_log(alloc: Global, at: u64) -> Result<String> {
    Ok(format!(in alloc; "no log at {at}")?)
}

/// A log is made and a body committed to it, while each call from `CALL` on fails: whether the commit is
/// answered as done, and whether the image `PICK` has the body at most once.
pub fn stop(alloc: Global, store: &mut MemStore, arguments: &str) -> Result<String> {
    let (call, pick) = words::first(arguments);
    store.fail_from(words::number(call)?);
    let left = log_after_a_crash(alloc, store, 5, &[1, 1], words::number(pick)?)?;
    left_shown(alloc, &left)
}

fn left_shown(alloc: Global, left: &LogLeft) -> Result<String> {
    let committed = if left.committed {
        "committed"
    } else {
        "failed"
    };
    let bodies = match &left.read {
        Ok(bodies) if bodies.len() > 1 => "more bodies",
        Ok(_) => "at most one body",
        Err(refusal) => return Err((*refusal).into()),
    };
    Ok(format!(in alloc; "{committed}, {bodies}")?)
}
