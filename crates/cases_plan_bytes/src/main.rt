//! Cases of the bytes of plans: a case a line on standard input, and on standard output a line for each, what
//! it gives. A case is the word of its subject and then its arguments, bytes in hex. A line that is empty or
//! begins with `#` is no case.
//!
//! - `plan BYTES`: the plan that is read.
//! - `bytes BYTES`: the bytes are read, and their plan is spelled again; or where reading stops.
//! - `prefixes BYTES`: whether each prefix of the bytes stops at its end.
//! - `changes BYTES`: whether each change of one byte stops where the plain reader says (`plain.rt`).
//! - `nested N BYTES`: N times `Distinct` above the plan with these bytes.
//! - `negated N BYTES`: a filter of a scan, whose test is N times `not` above the expression with these
//!   bytes.
#![tactic(auto)]

mod plain;

use anyhow::{Context, Result};
use case_text::cases::answer_each;
use plan_core::Plan;
use plan_spelling::{SpellRefusal, spell, unspell};
use std::alloc::Global;
use std::io;

fn main(rt: HostRuntime) -> io::Result<()> {
    answer_each(rt, answer)
}

/// What the case gives; a refusal is the error that its type prints.
fn answer(alloc: Global, case: &str) -> Result<String> {
    let (subject, arguments) = case.split_once(' ').unwrap_or((case, ""));
    match subject {
        "plan" => plan(alloc, &hex::decode(alloc, arguments)?),
        "bytes" => bytes(alloc, &hex::decode(alloc, arguments)?),
        "prefixes" => prefixes(alloc, &hex::decode(alloc, arguments)?),
        "changes" => changes(alloc, &hex::decode(alloc, arguments)?),
        "nested" => bytes(alloc, &above(alloc, b"", b"\x04", arguments)?),
        "negated" => bytes(
            alloc,
            &above(alloc, b"\x02\x01\x00\x00\x00\x00", b"\x15\x17", arguments)?,
        ),
        _ => None.context("no such subject"),
    }
}

fn plan(alloc: Global, bytes: &[u8]) -> Result<String> {
    let plan = unspell(alloc, bytes)?;
    shown(alloc, &plan)
}

fn shown(alloc: Global, plan: &Plan) -> Result<String> {
    Ok(format!(in alloc; "{plan:?}")?)
}

fn bytes(alloc: Global, bytes: &[u8]) -> Result<String> {
    match place(alloc, bytes)? {
        Some(at) => Ok(format!(in alloc; "stops at {at}")?),
        None => {
            let len = bytes.len();
            Ok(format!(in alloc; "{len} bytes, spelled again")?)
        }
    }
}

fn prefixes(alloc: Global, bytes: &[u8]) -> Result<String> {
    for len in 0..bytes.len() {
        if place(alloc, &bytes[..len])? != Some(len as u64) {
            return Ok(format!(in alloc; "the first {len} bytes stop elsewhere")?);
        }
    }
    let len = bytes.len();
    Ok(format!(in alloc; "{len} prefixes stop at their ends")?)
}

fn changes(alloc: Global, bytes: &[u8]) -> Result<String> {
    for at in 0..bytes.len() {
        if !stops_as_plain(alloc, bytes, at)? {
            return Ok(format!(in alloc; "a change of byte {at} stops elsewhere")?);
        }
    }
    let len = bytes.len();
    Ok(format!(in alloc; "changes of {len} bytes stop where the plain reader says")?)
}

/// Whether each change of this byte stops where the plain reader says.
fn stops_as_plain(alloc: Global, bytes: &[u8], at: usize) -> Result<bool> {
    for byte in 0..=u8::MAX {
        let mut changed = Vec::from_slice(alloc, bytes)?;
        if let Some(there) = changed.get_mut(at) {
            *there = byte;
        }
        if place(alloc, &changed)? != plain::place(alloc, &changed)? {
            return Ok(false);
        }
    }
    Ok(true)
}

/// The first bytes, a number of times the part, and the bytes given.
fn above(alloc: Global, first: &[u8], part: &[u8], arguments: &str) -> Result<Vec<u8>> {
    let (count, digits) = arguments.split_once(' ').context("no bytes")?;
    let mut bytes = Vec::from_slice(alloc, first)?;
    for _ in 0..count.parse::<u32>()? {
        bytes.extend_from_slice(part)?;
    }
    bytes.extend_from_slice(&hex::decode(alloc, digits)?)?;
    Ok(bytes)
}

/// Where reading stops; `None` where a plan is read that is spelled with the same bytes.
fn place(alloc: Global, bytes: &[u8]) -> Result<Option<u64>> {
    match unspell(alloc, bytes) {
        Ok(plan) => {
            let spelled = spell(alloc, &plan)?;
            compared(bytes, &spelled)
        }
        Err(SpellRefusal::NotPlan { at }) => Ok(Some(at)),
        Err(refusal) => Err(anyhow::Error::from(refusal)),
    }
}

fn compared(bytes: &[u8], spelled: &[u8]) -> Result<Option<u64>> {
    if spelled != bytes {
        return None.context("spelled with other bytes");
    }
    Ok(None)
}
