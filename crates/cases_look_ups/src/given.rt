//! What a case is given.

use anyhow::{Context, Result};
use catalog_types::Entry;
use plan_core::Plan;
use postfix_plans::{cuts_of, plan_of};
use rows_core::{Cut, Digest, FileRef, Seq};
use std::alloc::Global;

/// A plan and a cut, the ids that are left out, and the kept results.
#[derive(Drop)]
pub struct Case {
    pub plan: Plan,
    pub cuts: Seq<Cut>,
    pub without: Vec<u32>,
    pub entries: Vec<Entry>,
}

/// The case that is written so.
pub fn case_of(alloc: Global, text: &str) -> Result<Case> {
    let (plan, others) = text.split_once(" | ").context("no cut")?;
    let (cuts, others) = others.split_once(" | ").context("no ids")?;
    let (without, entries) = others.split_once(" | ").unwrap_or((others, ""));
    let cuts = cuts_of(alloc, cuts)?;
    let without = ids_of(alloc, without)?;
    let entries = entries_of(alloc, entries)?;
    let plan = plan_of(alloc, plan)?;
    Ok(Case {
        plan,
        cuts,
        without,
        entries,
    })
}

/// Ids behind commas; `-` stands for none.
fn ids_of(alloc: Global, text: &str) -> Result<Vec<u32>> {
    let mut ids = Vec::new(alloc);
    if text == "-" {
        return Ok(ids);
    }
    for id in text.split(',') {
        ids.push(id.parse::<u32>().ok().context("no id")?)?;
    }
    Ok(ids)
}

fn entries_of(alloc: Global, text: &str) -> Result<Vec<Entry>> {
    let mut entries = Vec::new(alloc);
    for line in text.split(" | ").filter(|line| !line.is_empty()) {
        entries.push(entry_of(alloc, line)?)?;
    }
    Ok(entries)
}

/// A kept result: its id, the length of its file, its cut and its plan, as `7 48 0-1 s0 distinct`. All have
/// the same keys, so that a look-up by them alone would err.
fn entry_of(alloc: Global, text: &str) -> Result<Entry> {
    let (id, others) = text.split_once(' ').context("no length")?;
    let (len, others) = others.split_once(' ').context("no cut")?;
    let (cuts, plan) = others.split_once(' ').context("no plan")?;
    let id = id.parse::<u32>().ok().context("no id")?;
    let len = len.parse::<u64>().ok().context("no length")?;
    let cuts = cuts_of(alloc, cuts)?;
    let plan = plan_of(alloc, plan)?;
    let key = Digest { bytes: [7; 32] };
    Ok(Entry {
        id,
        plan,
        cuts,
        program: key,
        key,
        file: FileRef {
            file: 1,
            len,
            digest: key,
        },
        machine: 1,
        uses: 1,
        last: 1,
        made: 1,
    })
}

/// A kept result of the first stream's rows at no cut, with these keys.
pub fn entry_with(alloc: Global, id: u32, program: Digest, key: Digest) -> Entry {
    Entry {
        id,
        plan: Plan::Scan { stream: 0 },
        cuts: Seq::new(Vec::new(alloc)),
        program,
        key,
        file: FileRef {
            file: 1,
            len: 0,
            digest: key,
        },
        machine: 1,
        uses: 1,
        last: 1,
        made: 1,
    }
}
