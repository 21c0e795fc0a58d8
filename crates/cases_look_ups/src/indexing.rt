//! Cases of the index: what stands under digests after some steps.

use crate::given::entry_with;
use anyhow::{Context, Result};
use cache_index::CacheIndex;
use catalog_types::Entry;
use rows_core::Digest;
use std::alloc::Global;

/// The ids under a program key and under a program-and-data key after the steps of a case. It is written as two
/// digests, each by the byte that it repeats, and the steps: `1 2 | +5 1 2 | -5` puts the result 5 under both and
/// takes it out.
pub fn indexed(alloc: Global, case: &str) -> Result<String> {
    let (digests, steps) = case.split_once(" | ").context("no steps")?;
    let (program, key) = digests.split_once(' ').context("no second digest")?;
    let (program, key) = (digest_of(program)?, digest_of(key)?);
    let mut index = CacheIndex::new(alloc);
    indexed_in(alloc, &mut index, steps, &program, &key)
}

fn indexed_in(
    alloc: Global,
    index: &mut CacheIndex,
    steps: &str,
    program: &Digest,
    key: &Digest,
) -> Result<String> {
    for step in steps.split(" | ") {
        do_step(alloc, index, step)?;
    }
    let of_program = ids_shown(alloc, index.of_program(program))?;
    let under = ids_shown(alloc, index.under(key))?;
    Ok(format!(in alloc; "of program {of_program}, under {under}")?)
}

// `+ID PROGRAM KEY`, or `-ID`.
fn do_step(alloc: Global, index: &mut CacheIndex, step: &str) -> Result<()> {
    if let Some(id) = step.strip_prefix('-') {
        index.remove(number(id)?);
        return Ok(());
    }
    let step = step.strip_prefix('+').context("no step")?;
    let (id, digests) = step.split_once(' ').context("no program")?;
    let (program, key) = digests.split_once(' ').context("no key")?;
    let (id, program, key) = (number(id)?, digest_of(program)?, digest_of(key)?);
    insert(index, &entry_with(alloc, id, program, key))
}

fn insert(index: &mut CacheIndex, entry: &Entry) -> Result<()> {
    Ok(index.insert(entry)?)
}

fn number(text: &str) -> Result<u32> {
    Ok(text.parse::<u32>().ok().context("no id")?)
}

fn digest_of(text: &str) -> Result<Digest> {
    let byte = text.parse::<u8>().ok().context("no digest")?;
    Ok(Digest { bytes: [byte; 32] })
}

// The ids behind commas; `-` stands for none.
fn ids_shown(alloc: Global, ids: &[u32]) -> Result<String> {
    if ids.is_empty() {
        return Ok(String::from_str(alloc, "-")?);
    }
    let mut shown = String::new(alloc);
    for id in ids {
        if !shown.is_empty() {
            shown.push(',')?;
        }
        shown.push_str(format!(in alloc; "{id}")?.as_str())?;
    }
    Ok(shown)
}
