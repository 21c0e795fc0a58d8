//! What a plan means on the rows of a cut.

use crate::given::Case;
use anyhow::{Context, Result};
use plan_core::{Schemas, Typed};
use postfix_plans::{Streams, rows_of, typed_of};
use rows_core::{Cut, Kind, Row, Seq, copy_rows};
use std::alloc::Global;

/// The rows that the evaluator gives at the cut, or the refusal. It is asked for the same plan over a stream
/// for each leaf, since the leaves of a stream may have different cuts.
pub fn meant_at(alloc: Global, case: &Case, leaves: &[u32], cuts: &[Cut]) -> Result<String> {
    let plan = over_leaves(alloc, case.plan.as_str())?;
    let streams = streams_of_leaves(alloc, case, leaves, cuts)?;
    rows_on(alloc, plan.as_str(), &streams)
}

fn rows_on(alloc: Global, plan: &str, streams: &Streams) -> Result<String> {
    let typed = typed_of(alloc, plan, &streams.schemas)?;
    rows_of(alloc, &typed, streams)
}

/// The plan with its leaves as streams of their own, which count up from 0.
fn over_leaves(alloc: Global, plan: &str) -> Result<String> {
    let mut renamed = String::new(alloc);
    let mut leaf: u32 = 0;
    for word in plan.split_whitespace() {
        if scanned(word).is_some() {
            renamed.push_str(format!(in alloc; "s{leaf} ")?.as_str())?;
            leaf = leaf.saturating_add(1);
        } else {
            renamed.push_str(word)?;
            renamed.push_str(" ")?;
        }
    }
    Ok(renamed)
}

/// The stream of the scan with this word, if it is the word of one.
pub fn scanned(word: &str) -> Option<u32> {
    word.strip_prefix('s')?.parse::<u32>().ok()
}

/// The kinds of each leaf's stream, and its rows at the cut.
fn streams_of_leaves(alloc: Global, case: &Case, leaves: &[u32], cuts: &[Cut]) -> Result<Streams> {
    let mut kinds = Vec::new(alloc);
    let mut rows = Vec::new(alloc);
    for (leaf, cut) in leaves.iter().zip(cuts) {
        let place = *leaf as usize;
        let stream = case.schemas.kinds.items().get(place).context("no stream")?;
        let extents = case.extents.items().get(place).context("no stream")?;
        kinds.push(stream.try_copy(alloc)?)?;
        rows.push(rows_at(alloc, extents.items(), *cut)?)?;
    }
    Ok(Streams {
        schemas: Schemas {
            kinds: Seq::new(kinds),
        },
        rows: Seq::new(rows),
    })
}

fn rows_at(alloc: Global, extents: &[Seq<Row>], cut: Cut) -> Result<Seq<Row>> {
    let mut rows = Vec::new(alloc);
    for extent in extents.iter().take(cut.to as usize).skip(cut.from as usize) {
        rows.append(&mut copy_rows(alloc, extent.items())?)?;
    }
    Ok(Seq::new(rows))
}
