//! Whole plans: `run` and a plan with its streams behind ` | `, or `made`, a number, a plan and the kinds of
//! its streams, of which so many rows are made. The plan is run once at all extents of its streams, which have
//! three rows each; the answer is the rows that `plan_evaluator` gives too, or of rows that are made how many
//! these are.

use crate::given::{Asked, Case};
use crate::made::rows_made;
use crate::meant::scanned;
use anyhow::{Context, Result};
use plan_core::Schemas;
use postfix_plans::{Streams, streams_of};
use rows_core::{Cut, Row, Seq, copy_rows};
use std::alloc::Global;

// The most rows of an extent.
const EXTENT: usize = 3;

/// A plan on the rows of its streams.
pub fn whole_case(alloc: Global, text: &str) -> Result<Case> {
    let (plan, streams) = text.split_once(" | ").context("no streams")?;
    let Streams { schemas, rows } = streams_of(alloc, streams)?;
    case_on(alloc, Asked::Rows, plan, schemas, rows.items())
}

/// A plan on rows that are made.
pub fn made_case(alloc: Global, text: &str) -> Result<Case> {
    let (count, others) = text.split_once(' ').context("no plan")?;
    let (plan, streams) = others.split_once(" | ").context("no streams")?;
    let count = count.parse::<u32>().ok().context("no number")?;
    let Streams { schemas, .. } = streams_of(alloc, streams)?;
    let rows = rows_made(alloc, schemas.kinds.items(), count)?;
    case_on(alloc, Asked::Count, plan, schemas, rows.items())
}

fn case_on(
    alloc: Global,
    asked: Asked,
    plan: &str,
    schemas: Schemas,
    rows: &[Seq<Row>],
) -> Result<Case> {
    let extents = all_divided(alloc, rows)?;
    let steps = whole_step(alloc, plan, extents.items())?;
    let plan = String::from_str(alloc, plan)?;
    Ok(Case {
        asked,
        plan,
        schemas,
        extents,
        steps,
    })
}

/// The rows of each stream in extents.
fn all_divided(alloc: Global, streams: &[Seq<Row>]) -> Result<Seq<Seq<Seq<Row>>>> {
    let mut extents = Vec::new(alloc);
    for rows in streams {
        extents.push(divided(alloc, rows.items())?)?;
    }
    Ok(Seq::new(extents))
}

fn divided(alloc: Global, rows: &[Row]) -> Result<Seq<Seq<Row>>> {
    let mut extents = Vec::new(alloc);
    for rows in rows.chunks(EXTENT) {
        extents.push(Seq::new(copy_rows(alloc, rows)?))?;
    }
    Ok(Seq::new(extents))
}

/// One step, at the cut with all extents of the stream of each leaf.
fn whole_step(alloc: Global, plan: &str, extents: &[Seq<Seq<Row>>]) -> Result<Vec<Seq<Cut>>> {
    let mut cuts = Vec::new(alloc);
    for word in plan.split_whitespace() {
        if let Some(stream) = scanned(word) {
            cuts.push(whole_cut(extents, stream)?)?;
        }
    }
    let mut steps = Vec::new(alloc);
    steps.push(Seq::new(cuts))?;
    Ok(steps)
}

fn whole_cut(extents: &[Seq<Seq<Row>>], stream: u32) -> Result<Cut> {
    let extents = extents.get(stream as usize).context("no stream")?;
    let count = u32::try_from(extents.items().len()).ok();
    Ok(Cut {
        from: 0,
        to: count.context("too many extents")?,
    })
}
