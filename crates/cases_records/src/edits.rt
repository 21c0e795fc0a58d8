//! What reading gives where one byte is another: for each byte a line, which its neighbours share where it is
//! the same. A line has the first and the last of these bytes, and then bytes from one to another with what
//! reading gives with them: `read`, `here` where it stops at this byte, `end` where it stops at the end, or
//! the place.

use crate::reading::{form_and_rest, place};
use anyhow::Result;
use record_codec::Form;
use std::alloc::Global;

pub fn edits(alloc: Global, arguments: &str) -> Result<String> {
    let (form, digits) = form_and_rest(arguments)?;
    let bytes = hex::decode(alloc, digits)?;
    let mut lines = String::new(alloc);
    let mut first = 0;
    let mut shared = String::new(alloc);
    for at in 0..bytes.len() {
        let runs = runs(alloc, form, &bytes, at)?;
        if runs.as_str() != shared.as_str() {
            put_line(alloc, &mut lines, first, at, shared.as_str())?;
            first = at;
            shared = runs;
        }
    }
    put_line(alloc, &mut lines, first, bytes.len(), shared.as_str())?;
    Ok(lines)
}

/// A line for the bytes from the first up to another, where there is one.
fn put_line(alloc: Global, lines: &mut String, first: usize, end: usize, runs: &str) -> Result<()> {
    if first == end {
        return Ok(());
    }
    let last = end.saturating_sub(1);
    let gap = if lines.is_empty() { "" } else { "\n" };
    lines.push_str(format!(in alloc; "{gap}{first} to {last}:{runs}")?.as_str())?;
    Ok(())
}

/// What reading gives with each byte in this place.
fn runs(alloc: Global, form: Form, bytes: &[u8], at: usize) -> Result<String> {
    let mut runs = String::new(alloc);
    let mut changed = Vec::from_slice(alloc, bytes)?;
    let mut first = 0;
    let mut shared = outcome(alloc, form, &mut changed, at, 0)?;
    for byte in 1..=u8::MAX {
        let next = outcome(alloc, form, &mut changed, at, byte)?;
        if next != shared {
            put_run(
                alloc,
                &mut runs,
                first,
                byte.wrapping_sub(1),
                shown(alloc, shared, at, bytes.len())?.as_str(),
            )?;
            first = byte;
            shared = next;
        }
    }
    put_run(
        alloc,
        &mut runs,
        first,
        u8::MAX,
        shown(alloc, shared, at, bytes.len())?.as_str(),
    )?;
    Ok(runs)
}

fn outcome(
    alloc: Global,
    form: Form,
    bytes: &mut Vec<u8>,
    at: usize,
    byte: u8,
) -> Result<Option<u64>> {
    if let Some(there) = bytes.get_mut(at) {
        *there = byte;
    }
    place(alloc, form, bytes)
}

fn put_run(alloc: Global, runs: &mut String, first: u8, last: u8, outcome: &str) -> Result<()> {
    let run = if first == last {
        format!(in alloc; " {first:02x} {outcome}")?
    } else {
        format!(in alloc; " {first:02x}-{last:02x} {outcome}")?
    };
    runs.push_str(run.as_str())?;
    Ok(())
}

fn shown(alloc: Global, outcome: Option<u64>, at: usize, len: usize) -> Result<String> {
    match outcome {
        None => Ok(format!(in alloc; "read")?),
        Some(place) if place == at as u64 => Ok(format!(in alloc; "here")?),
        Some(place) if place == len as u64 => Ok(format!(in alloc; "end")?),
        Some(place) => Ok(format!(in alloc; "{place}")?),
    }
}
