//! Entries and numbers of a case.
ghost use Rattle.std.specs.Prelude.{IfOk};
ghost use Rattle.std.specs.List.{All};
ghost use Rattle.collector.specs.Ratio.{CanBeRanked};

use anyhow::{Context, Result};
use catalog_types::Entry;
use plan_core::Plan;
use rows_core::{Digest, FileRef, Seq};
use std::alloc::Global;

/// The greatest length of a result file.
const MAX_LEN: u32 = 67_108_864;

/// The numbers, with spaces between them; `-` stands for none.
pub fn numbers_of(alloc: Global, text: &str) -> Result<Vec<u32>> {
    let mut numbers = Vec::new(alloc);
    if text == "-" {
        return Ok(numbers);
    }
    for word in text.split(' ') {
        numbers.push(word.parse::<u32>().ok().context("no number")?)?;
    }
    Ok(numbers)
}

/// The entries, which a collection at this tick can rank.
pub fn entries_of(alloc: Global, text: &str, now: u32) -> Result<Vec<Entry>>
    ensures { IfOk result (λ entries. All (CanBeRanked now) entries.items) }
{
    let mut entries = Vec::new(alloc);
    for part in text.split(", ") {
        entries.push(entry_of(alloc, part, now)?)?;
    }
    Ok(entries)
}

/// The entry of these numbers, which a collection at this tick can rank.
pub fn entry_of(alloc: Global, text: &str, now: u32) -> Result<Entry>
    ensures { IfOk result (CanBeRanked now) }
{
    let numbers = numbers_of(alloc, text)?;
    ranked(alloc, &numbers, now)
}

fn ranked(alloc: Global, numbers: &[u32], now: u32) -> Result<Entry>
    ensures { IfOk result (CanBeRanked now) }
{
    match numbers {
        [id, len, last, uses, machine, made] => {
            if *last > now || *len > MAX_LEN || *uses == 0 || *machine == 0 {
                return None.context("it can't be ranked");
            }
            Ok(Entry {
                id: *id,
                plan: Plan::Scan { stream: 0 },
                cuts: Seq::new(Vec::new(alloc)),
                program: no_digest(),
                key: no_digest(),
                file: FileRef {
                    file: 1,
                    len: u64::from(*len),
                    digest: no_digest(),
                },
                machine: *machine,
                uses: *uses,
                last: *last,
                made: *made,
            })
        }
        _ => None.context("not six numbers"),
    }
}

fn no_digest() -> Digest {
    Digest { bytes: [0; 32] }
}
