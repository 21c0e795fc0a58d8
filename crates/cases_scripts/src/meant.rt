//! What a plan means on the rows of a moment.

use crate::plans::plan;
use anyhow::Result;
use postfix_plans::{Streams, plan_of, rows_of, streams_of, typed};
use std::alloc::Global;

/// The row lines of each stream, with their LFs.
#[derive(Drop)]
pub struct Rows {
    pub s: String,
    pub t: String,
}

/// A plan, and how many bytes of the row lines of each stream count.
#[derive(Clone, Copy)]
pub struct Meant {
    pub plan: u64,
    pub s: usize,
    pub t: usize,
}

/// The lines of the rows that the evaluator gives, with ` / ` between them.
pub fn rows_meant(alloc: Global, meant: Meant, rows: &Rows) -> Result<String> {
    let s = rows.s.as_str().get(..meant.s).unwrap_or("");
    let t = rows.t.as_str().get(..meant.t).unwrap_or("");
    let streams = format!(in alloc; "int,int {s} | int,text {t}")?;
    evaluated(alloc, plan(meant.plan).postfix, streams.as_str())
}

fn evaluated(alloc: Global, plan: &str, streams: &str) -> Result<String> {
    let streams = streams_of(alloc, streams)?;
    evaluated_over(alloc, plan, &streams)
}

fn evaluated_over(alloc: Global, plan: &str, streams: &Streams) -> Result<String> {
    let plan = plan_of(alloc, plan)?;
    let typed = typed(alloc, plan, &streams.schemas)?;
    rows_of(alloc, &typed, streams)
}
