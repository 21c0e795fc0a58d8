//! What a case is given.

use anyhow::{Context, Result, bail};
use plan_core::Schemas;
use postfix_plans::{Streams, streams_of};
use rows_core::{Cut, Kind, Row, Seq};
use std::alloc::Global;

/// What is asked of a case: what is held at each step; what each step gives, reads and keeps; or the rows of
/// its one step, or how many they are.
#[derive(Clone, Copy)]
pub enum Asked {
    Held,
    Steps,
    Rows,
    Count,
}

/// A plan, the kinds and the extents of the streams, and a cut for each step.
#[derive(Drop)]
pub struct Case {
    pub asked: Asked,
    pub plan: String,
    pub schemas: Schemas,
    pub extents: Seq<Seq<Seq<Row>>>,
    pub steps: Vec<Seq<Cut>>,
}

/// The case that is written so.
pub fn case_of(alloc: Global, asked: Asked, text: &str) -> Result<Case> {
    let (subject, steps) = text.split_once(" || ").context("no steps")?;
    let (plan, streams) = subject.split_once(" | ").context("no streams")?;
    let mut kinds = Vec::new(alloc);
    let mut extents = Vec::new(alloc);
    for stream in streams.split(" | ") {
        put_stream(alloc, stream, &mut kinds, &mut extents)?;
    }
    let steps = steps_of(alloc, steps)?;
    let plan = String::from_str(alloc, plan)?;
    Ok(Case {
        asked,
        plan,
        schemas: Schemas {
            kinds: Seq::new(kinds),
        },
        extents: Seq::new(extents),
        steps,
    })
}

fn put_stream(
    alloc: Global,
    text: &str,
    kinds: &mut Vec<Seq<Kind>>,
    extents: &mut Vec<Seq<Seq<Row>>>,
) -> Result<()> {
    let (stream_kinds, rows) = stream_of(alloc, text)?;
    extents.push(rows)?;
    Ok(kinds.push(stream_kinds)?)
}

/// A stream's kinds and the rows of its extents. It is read as so many streams as it has extents.
fn stream_of(alloc: Global, text: &str) -> Result<(Seq<Kind>, Seq<Seq<Row>>)> {
    let written = extents_as_streams(alloc, text)?;
    let Streams { schemas, rows } = streams_of(alloc, written.as_str())?;
    match schemas.kinds.into_vec().into_iter().next() {
        Some(kinds) => Ok((kinds, rows)),
        None => bail!("no kinds"),
    }
}

fn extents_as_streams(alloc: Global, text: &str) -> Result<String> {
    let (kinds, extents) = text.split_once(' ').unwrap_or((text, ""));
    let mut written = String::new(alloc);
    for extent in extents.split('/') {
        if !written.is_empty() {
            written.push_str(" | ")?;
        }
        written.push_str(kinds)?;
        put_rows(&mut written, extent)?;
    }
    Ok(written)
}

/// Appends each of the rows as often as it counts.
fn put_rows(written: &mut String, rows: &str) -> Result<()> {
    for word in rows.split_whitespace() {
        let (count, row) = word.split_once('*').unwrap_or(("1", word));
        put_row(written, count.parse::<u32>().ok().context("no count")?, row)?;
    }
    Ok(())
}

fn put_row(written: &mut String, count: u32, row: &str) -> Result<()> {
    for _ in 0..count {
        written.push_str(" ")?;
        written.push_str(row)?;
    }
    Ok(())
}

/// Cuts, as `1,2 ; 2,2`.
fn steps_of(alloc: Global, text: &str) -> Result<Vec<Seq<Cut>>> {
    let mut steps = Vec::new(alloc);
    for step in text.split(" ; ") {
        steps.push(step_of(alloc, step)?)?;
    }
    Ok(steps)
}

fn step_of(alloc: Global, text: &str) -> Result<Seq<Cut>> {
    let mut cuts = Vec::new(alloc);
    for count in text.split(',') {
        let to = count.parse::<u32>().ok().context("no count")?;
        cuts.push(Cut { from: 0, to })?;
    }
    Ok(Seq::new(cuts))
}
