//! The rows that a plan gives. Behind the plan stand its streams: the kinds of each and the lines of its
//! rows.

use anyhow::{Context, Result};
use postfix_plans::{Streams, rows_of, streams_of, typed_of};
use std::alloc::Global;

/// The lines of the rows, with ` / ` between them, or the refusal.
pub fn rows(alloc: Global, text: &str) -> Result<String> {
    let (plan, streams) = text.split_once(" | ").context("no streams")?;
    let streams = streams_of(alloc, streams)?;
    rows_on(alloc, plan, &streams)
}

fn rows_on(alloc: Global, plan: &str, streams: &Streams) -> Result<String> {
    let typed = typed_of(alloc, plan, &streams.schemas)?;
    rows_of(alloc, &typed, streams)
}
